// The bench: plays a tape and prints one line a record.
#![tactic(auto)]

use bench_play::{play, too_long};
use tape_input::NoTape;

fn main(rt: HostRuntime) {
    let mut buffer = io::large_buffer();
    match tape_input::taken(&rt, &mut buffer) {
        Ok(tape) => play(tape),
        Err(NoTape::TooLong) => too_long(),
        Err(NoTape::Unopened) => {}
    }
}
