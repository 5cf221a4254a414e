// The monthly occupancy report: definitions and their laws, no code. Document 02, 9/13.
#![tactic(auto)]
