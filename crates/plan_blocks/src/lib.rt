// Parts to blocks, and what their starts and the part table are; `plan_table` writes the table. Document 01, "Blocks and offsets".
#![tactic(auto)]

pub mod costs;
pub mod firsts;
pub mod totals;
