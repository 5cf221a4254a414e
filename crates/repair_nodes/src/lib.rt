// Placing and clearing one node of a stage: definitions and laws, no code. Document 02, 7/13.
#![tactic(auto)]
