// The form of script words for the run: document 01, "Form for 15". The numbers of a part, the tests, and the refusals that look at what is given.
#![tactic(auto)]

pub mod form;
pub mod part;
pub mod refuse;
