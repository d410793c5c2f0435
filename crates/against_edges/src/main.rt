// The bench's lines for many tapes in one input: tapes at the edges of what a tape may be.
#![tactic(auto)]

use against_input::take_tape;
use bench_play::{play, too_long};

// The tapes that are taken at most.
const TAPES: usize = 1000;

fn main() {
    let mut room = io::large_buffer();
    for _ in 0..TAPES {
        let Ok(Some(long)) = take_tape(&mut room) else {
            return;
        };
        match room.get(..long) {
            Some(tape) => play(tape),
            None => too_long(),
        }
    }
}
