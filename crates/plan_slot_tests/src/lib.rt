// Refusals 9, 10 and 11: the slots of each part, looked at one by one.
#![tactic(auto)]

pub mod computed;
pub mod later;
pub mod runs;
pub mod standing;
