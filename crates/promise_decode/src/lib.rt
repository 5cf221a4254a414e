// Scripts read back: definitions and theorems, no code.
#![tactic(auto)]
