// Many tapes in one input, each behind its length, and for each record one line with all that it left: the record,
// digests of memory, area and output, and the driven samples. The second program prints the same.
#![tactic(auto)]

use against_input::{Cut, play, take_tape};
use against_records::{SPARE, put_turns};
use bench_lines::last_line;
use parts::LARGEST_AREA;
use std::fmt;
use std::fmt::Write;
use tape::{LARGEST_MEMORY, MOST_SAMPLES};
use text::{Page, flush_full};

// The lines of tape `k` and of its records. One too long for the buffer is bad; its length stands beside it, since it is printed too
// (`take_tape`). Memory, area and output are lent apart, as `put_turns` takes them.
fn put_tape(
    page: &mut Page,
    k: u64,
    long: usize,
    tape: Option<&[u8]>,
    memory: &mut [u8],
    area: &mut [u8],
    output: &mut [u8],
) {
    writeln!(page, "tape {k} {long}");
    match tape {
        Some(whole) => {
            put_turns(page, whole, memory, area, output);
            flush_full(page);
        }
        None => last_line(page, b"bad", 0),
    }
}

// Tape `k`, where there is one.
fn turn(
    page: &mut Page,
    k: u64,
    tape: &mut [u8],
    memory: &mut [u8],
    area: &mut [u8],
    output: &mut [u8],
) -> Result<bool, Cut> {
    let Some(long) = take_tape(tape)? else {
        return Ok(false);
    };
    put_tape(page, k, long, tape.get(..long), memory, area, output);
    Ok(true)
}

fn main() {
    let mut tape = io::large_buffer();
    let mut memory = [0u8; LARGEST_MEMORY];
    let mut area = [0u8; LARGEST_AREA];
    let mut output = [0u8; MOST_SAMPLES + SPARE];
    let mut room = io::large_buffer();
    play(&mut Page::begun(&mut room, 0), |page, k| {
        turn(page, k, &mut tape, &mut memory, &mut area, &mut output)
    });
}
