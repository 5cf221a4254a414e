// The plan record: its words, where they stand, and what they stand for. Document 01, "Plan ranges".
#![tactic(auto)]

pub mod bodies;
pub mod numbers;
pub mod places;
