// The run of a major stage: document 01, "The run". A part is read from the script's words where they stand.
#![tactic(auto)]

pub mod block;
mod capture;
pub mod room;
