// No code: what demand 3 and the small program ask of each command, as one record of laws
// (proofs/ByCommand.antt).
//
// It lies above `opening`, whose definitions the commands' code is proved against without these laws.

#![tactic(auto)]
