// A part of the monthly report: what becomes of it, and what it adds. Document 02, 9/13.
#![tactic(auto)]

pub mod counts;
pub mod outcome;
