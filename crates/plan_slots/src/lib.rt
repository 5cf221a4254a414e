// The slots of a part: what may stand in one, and the tables of a part's pins.
#![tactic(auto)]

pub mod tables;
