// The words of one part: document 01, "The script of a part". The Rust is `build_script`. Here are the first words and the masks; `script_sections` has the
// sections. Each writer takes a slice of exactly its section's length.
#![tactic(auto)]

pub mod head;
pub mod masks;
pub mod sizes;
