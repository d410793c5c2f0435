// The plan of a command: what its clocks are for.
//
// `registers` has the sizes of the registers and the map that 65h goes by, `plans` the wires, the
// address, the wait and the data of every command.
#![tactic(auto)]

pub mod plans;
pub mod registers;
