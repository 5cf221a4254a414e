// What script words mean: definitions and their laws, no code.
#![tactic(auto)]
