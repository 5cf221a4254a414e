// Read sets joined: definitions and laws, no code. Document 02, 11/13.
#![tactic(auto)]
