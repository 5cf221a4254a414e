// Read rounds: definitions and their laws, no code. Document 01, "Read rounds".
#![tactic(auto)]
