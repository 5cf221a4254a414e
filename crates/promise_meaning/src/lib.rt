// What the bits of a part's run mean: definitions and theorems, no code.
#![tactic(auto)]
