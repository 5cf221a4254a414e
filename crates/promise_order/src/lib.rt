// The order of turns: definitions and theorems, no code.
#![tactic(auto)]
