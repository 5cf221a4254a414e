// The file of stored plans: lists as it has them, put back into words, and comparisons with them. host/README.md says its form.
#![tactic(auto)]

pub mod list;
pub mod same;
