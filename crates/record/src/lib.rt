// The device record, by value: all that a chip is, but for the memory and the area that are lent to it.
//
// A record is plain data and may hold any numbers at all; whether they are those of a chip is a check of
// its own. What changes a record takes it and returns the next. There is a file for each matter (D72).
#![tactic(auto)]

pub mod answers;
pub mod devices;
pub mod fields;
pub mod fresh;
pub mod resets;
pub mod shows;

pub use answers::{Answer, Class, class_of, is_done, is_protected, is_refusal};
pub use devices::{
    Aim, Device, Identities, Make, Outcome, Registers, Setting, Underway, Volatile, mode_wires,
    unclocked,
};
pub use shows::without_latch;
