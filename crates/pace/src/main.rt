// Long transactions and gatherings, over and over on the same buffers, so that their time can be taken from outside:
// `pace read 4 65535 200 10` clocks a read of 65,535 clocks on four wires 200 times on a chip of n = 10,
// `pace read 4 65535 200 10 16` does so in chunks of 16 clocks, and `pace gather 4 65535 200` gathers so many driven
// samples. One line tells the clocks of all calls that were answered 0, and digests of what the last one left. The second
// program prints the same.
#![tactic(auto)]

use bench_columns::{digest_column, fill_by, room};
use digits::number_in;
use pace_calls::{Asked, What, answered, build, byte_at, chip, is_clocked, total};
use parts::{LARGEST_AREA, LARGEST_MEMORY, Part};
use places::memory_size;
use std::env::Env;
use std::fmt;
use std::fmt::Write;
use text::{Page, flush};
use units::{Clocks, Wires};
use wires::level;

fn what_in(word: &[u8]) -> Option<What> {
    match word {
        b"read" => Some(What::Read),
        b"write" => Some(What::Write),
        b"gather" => Some(What::Gather),
        _ => None,
    }
}

// Word `i` of the command line. One that is missing, or too long for the buffer, has no bytes.
fn word_at<'a>(rt: &impl Env, i: usize, buffer: &'a mut [u8]) -> &'a [u8] {
    match rt.arg(i, buffer) {
        Ok(n) => &buffer[..n],
        Err(_) => &[],
    }
}

// The number that word `i` of the command line is.
fn number_at(rt: &impl Env, i: usize, buffer: &mut [u8], most: u32) -> Option<u32> {
    number_in(word_at(rt, i, buffer), 10, most)
}

fn small_at(rt: &impl Env, i: usize, buffer: &mut [u8], most: u8) -> Option<u8> {
    u8::try_from(number_at(rt, i, buffer, u32::from(most))?).ok()
}

// No other number is taken here, and `record::mode_wires` takes any for one wire.
fn wires_at(rt: &impl Env, i: usize, buffer: &mut [u8]) -> Option<Wires> {
    match number_at(rt, i, buffer, 4)? {
        1 => Some(Wires::One),
        2 => Some(Wires::Two),
        4 => Some(Wires::Four),
        _ => None,
    }
}

// The clocks of the longest run.
fn most_clocks() -> u32 {
    Clocks::longest().in_clocks() as u32
}

// What the command line asks for. Repeats and n that are missing, or are no such numbers, are 0: then there is no call, and no chip
// to clock. Without the clocks of a chunk each transaction comes in one call.
fn hear(rt: &impl Env, buffer: &mut [u8]) -> Option<Asked> {
    Some(Asked {
        what: what_in(word_at(rt, 1, buffer))?,
        wires: wires_at(rt, 2, buffer)?,
        clocks: number_at(rt, 3, buffer, most_clocks())?,
        repeats: number_at(rt, 4, buffer, 1000000).unwrap_or(0),
        n: small_at(rt, 5, buffer, Part::M.most()).unwrap_or(0),
        chunk: number_at(rt, 6, buffer, most_clocks()).map(|n| n as usize),
    })
}

// Whether there is such a run: a write needs some clocks behind its address.
fn is_whole(a: Asked) -> bool {
    64 <= a.clocks && (a.what == What::Gather || Part::M.least() <= a.n)
}

// The line of a run: its clocks, and digests of what was driven or gathered, and of the memory.
fn put_line(page: &mut Page, clocks: u64, left: &[u8], memory: &[u8]) {
    write!(page, "{clocks} clocks");
    digest_column(page, left);
    digest_column(page, memory);
    writeln!(page);
}

fn tell(clocks: u64, left: &[u8], memory: &[u8]) {
    let mut buffer = io::buffer();
    let mut page = Page::begun(&mut buffer, 0);
    put_line(&mut page, clocks, left, memory);
    flush(&mut page);
}

fn gather(a: Asked, driven: &mut [u8], bytes: &mut [u8]) {
    fill_by(driven, |i| level(byte_at(i), a.wires));
    let done = answered(a.repeats, || host::gather(a.mode(), driven, bytes).is_ok());
    tell(total(done, a.clocks), bytes, b"");
}

// The bursts, on a chip with so much memory and area as it has.
fn clock(a: Asked, memory: &mut [u8], samples: &mut [u8], output: &mut [u8]) {
    let d = chip(a);
    let mut written = io::large_buffer();
    let mut room = [0; LARGEST_AREA];
    let Some(area) = room.get_mut(..a.part().area().in_bytes()) else {
        return;
    };
    fill_by(memory, |i| byte_at(i));
    build(a, &mut written, samples);
    let done = answered(a.repeats, || {
        is_clocked(d, a.chunk, memory, area, samples, output)
    });
    tell(total(done, a.clocks), output, memory);
}

// The same with so much memory as the chip has.
fn clock_sized(a: Asked, memory: &mut [u8], samples: &mut [u8], output: &mut [u8]) {
    if a.n <= Part::M.most() {
        if let Some(memory) = memory.get_mut(..memory_size(a.n).in_bytes()) {
            clock(a, memory, samples, output);
        }
    }
}

// The run that is asked for, on so many samples as it has clocks.
fn run(a: Asked, memory: &mut [u8], samples: &mut [u8], output: &mut [u8]) {
    let clocks = a.clocks as usize;
    let Some(samples) = samples.get_mut(..clocks) else {
        return;
    };
    let Some(output) = output.get_mut(..clocks) else {
        return;
    };
    match a.what {
        What::Gather => gather(a, samples, output),
        What::Read | What::Write => clock_sized(a, memory, samples, output),
    }
}

fn main(rt: HostRuntime) {
    let mut memory = room::<LARGEST_MEMORY>();
    let mut samples = io::large_buffer();
    let mut output = io::large_buffer();
    let mut word = io::buffer();
    match hear(&rt, &mut word) {
        Some(a) if is_whole(a) => run(a, &mut memory, &mut samples, &mut output),
        _ => {
            io::write_all(
                2,
                b"pace read|write|gather WIRES CLOCKS REPEATS [N [CHUNK]]: 1, 2 or 4 wires, 64 to 65535 clocks, n 10 to 21\n",
            );
        }
    }
}
