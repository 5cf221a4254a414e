// Demand 3: definitions and theorem, no code.
#![tactic(auto)]
