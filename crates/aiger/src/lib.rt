// Binary AIGER: definitions and laws, no code. Document 02, 1/13.
#![tactic(auto)]
