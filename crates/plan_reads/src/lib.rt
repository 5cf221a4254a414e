// The reads of a part: its read set, its lanes, the entries of its pins.
#![tactic(auto)]

pub mod asked;
pub mod check;
pub mod entries;
pub mod searched;
