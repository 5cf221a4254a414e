// Document 01's sentences in its own digits, of the definitions that say them otherwise: statements and laws, no code.
#![tactic(auto)]
