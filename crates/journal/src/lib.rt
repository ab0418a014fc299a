// No code: the journal's entries, their bytes and what reading them back gives, with its laws.

#![tactic(auto)]
