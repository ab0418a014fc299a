// No code: document 01's bench cards *1 to *9 and 10, shown by proof.

#![tactic(auto)]
