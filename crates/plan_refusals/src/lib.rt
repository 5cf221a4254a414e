// The refusals of a plan, in their order: definitions and laws, no code. `plan_checks` finds them.
#![tactic(auto)]
