// A tape for people: a paragraph for each record, with what it asks for, its clocks, its data, what it changed,
// and why it is answered so.
#![tactic(auto)]

use list_rows::Count;
use list_turns::{Stores, put_turns};
use parts::LARGEST_AREA;
use std::fmt;
use std::fmt::Write;
use tape::LARGEST_MEMORY;
use tape_input::NoTape;
use text::Page;
use units::Bytes;

// The tape's own line.
fn put_tape(page: &mut Page, tape: &[u8]) {
    writeln!(page, "tape of {}", Count::of_bytes(Bytes::of_store(tape)));
}

fn list(tape: &[u8]) {
    let mut memory = [0u8; LARGEST_MEMORY];
    let mut area = [0u8; LARGEST_AREA];
    let mut output = io::buffer();
    let mut memory_before = [0u8; LARGEST_MEMORY];
    let mut area_before = [0u8; LARGEST_AREA];
    let mut room = io::large_buffer();
    let mut now = Stores {
        memory: &mut memory,
        area: &mut area,
    };
    let mut before = Stores {
        memory: &mut memory_before,
        area: &mut area_before,
    };
    let mut page = Page::begun(&mut room, 0);
    put_tape(&mut page, tape);
    put_turns(&mut page, tape, &mut now, &mut before, &mut output);
    text::flush(&mut page);
}

fn main(rt: HostRuntime) {
    let mut buffer = io::large_buffer();
    match tape_input::taken(&rt, &mut buffer) {
        Ok(tape) => {
            list(tape);
        }
        Err(NoTape::TooLong) => {
            io::write_all(
                1,
                b"The tape is over 65,536 bytes, and nothing of it is played.\n",
            );
        }
        Err(NoTape::Unopened) => {}
    }
}
