// Bits and halves of 32-bit words, words cleared, the four units, the script edition, the refusals' numbers, what is handed out, places in a round.
#![tactic(auto)]

pub mod answer;
pub mod bits;
pub mod clear;
pub mod edition;
pub mod found;
pub mod halves;
pub mod refusals;
pub mod round;
pub mod units;
