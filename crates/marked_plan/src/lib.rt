// M10's plan as a record, and what the definitions make of it: definitions and laws, no code.
#![tactic(auto)]
