// The marked small set of document 01: definitions and one claim, no code.
#![tactic(auto)]
