// The assembled script: definitions and their laws.
#![tactic(auto)]
