// No code: what replaying a journal gives, and the theorems about the unit's journal.

#![tactic(auto)]
