// Lanes handed in for a read set: definitions and laws, no code. Document 02, 8/13.
#![tactic(auto)]
