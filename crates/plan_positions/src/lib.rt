// Planned positions of the pins that parts read: refusal 12.
#![tactic(auto)]

pub mod planned;
pub mod ranks;
