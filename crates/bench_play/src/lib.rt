// The bench's lines for a tape: the header, one line a record, and the verdict.
#![tactic(auto)]

use bench_lines::{header, last_line, line, verdict};
use parts::LARGEST_AREA;
use tape::LARGEST_MEMORY;
use tape_session::TURNS;
use text::Page;

// Every record, to the end or to one that is bad. Memory, area and output are lent apart, as the calls of the device have them.
fn run(tape: &[u8], memory: &mut [u8], area: &mut [u8], output: &mut [u8], page: &mut Page) {
    let mut session = tape_session::start();
    for before in 0..TURNS {
        match tape_session::advance(session, tape, memory, area, output) {
            Ok(turn) => {
                line(page, before + 1, turn.outcome);
                text::flush_full(page);
                session = turn.session;
            }
            Err(why) => {
                verdict(page, why, before, session.at);
                break;
            }
        }
    }
}

// Plays a tape and prints its lines.
pub fn play(tape: &[u8]) {
    let mut memory = [0u8; LARGEST_MEMORY];
    let mut area = [0u8; LARGEST_AREA];
    let mut output = io::buffer();
    let mut room = io::large_buffer();
    let mut page = Page::begun(&mut room, 0);
    header(&mut page);
    run(tape, &mut memory, &mut area, &mut output, &mut page);
    text::flush(&mut page);
}

// The lines of a tape that is longer than a tape may be.
pub fn too_long() {
    let mut room = io::buffer();
    let mut page = Page::begun(&mut room, 0);
    header(&mut page);
    last_line(&mut page, b"bad", 0);
    text::flush(&mut page);
}
