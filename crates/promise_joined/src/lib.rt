// Build and run put together: definitions and theorem, no code.
#![tactic(auto)]
