// The sections of a part's script, and the script joined of them. Each writer takes a slice of exactly its section's length.
#![tactic(auto)]

pub mod parts;
pub mod sections;
pub mod stages;
