// The part table: counts, blocks, ranks, state and SRAM starts of every part, and refusal 8. Document 01, "Blocks and offsets".
#![tactic(auto)]

pub mod stages;
pub mod starts;
pub mod table;
