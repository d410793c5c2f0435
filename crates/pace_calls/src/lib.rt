// The calls that are measured: the chip, the command and its samples, and the same call over and over.
#![tactic(auto)]

ghost use Rattle.std.specs.Prelude.{◌<◌, ◌≤◌};

use bench_columns::fill_by;
use host_order::Order;
use parts::Part;
use record::{Answer, Device, Make};
use units::{Bytes, Clocks, Wires, bytes_to_clocks, clocks_to_bytes};

// What is done over and over.
#[derive(Clone, Copy, PartialEq, Eq)]
pub enum What {
    Read,
    Write,
    Gather,
}

// What is asked. `chunk` is the clocks of a chunk, where a transaction does not come in one call.
#[derive(Clone, Copy)]
pub struct Asked {
    pub what: What,
    pub wires: Wires,
    pub clocks: u32,
    pub repeats: u32,
    pub n: u8,
    pub chunk: Option<usize>,
}

impl Asked {
    // The number of the wires, as the record's mode and the host half have it. It is a byte there; `From` gives a `usize` for shifts,
    // and a conversion of that could fail.
    pub fn mode(self) -> u8 {
        match self.wires {
            Wires::One => 1,
            Wires::Two => 2,
            Wires::Four => 4,
        }
    }

    // Part P is the one that reads on four wires.
    pub fn part(self) -> Part {
        if self.what == What::Read && self.wires == Wires::Four {
            Part::P
        } else {
            Part::M
        }
    }
}

// Bytes that differ from their neighbours, by their place.
pub fn byte_at(i: usize) -> u8 {
    (i % 251) as u8
}

// Memory is read on one wire and on four. On two wires there is only the read of a register, of eight bytes, and its
// other clocks are rest.
fn opcode(a: Asked) -> u8 {
    match (a.what, a.wires) {
        (What::Write, _) => 0x02,
        (_, Wires::One) => 0x03,
        (_, Wires::Two) => 0x4C,
        (_, Wires::Four) => 0x0B,
    }
}

// A fresh chip in the mode of the burst. Part M as it leaves the factory asks for no latch; part P has no unique number.
pub fn chip(a: Asked) -> Device {
    let make = Make {
        part: a.part().into(),
        n: a.n,
    };
    Device::fresh(make, [0; 8], [1, 2, 3, 4, 5, 6, 7, 8]).in_mode(a.mode())
}

fn order(a: Asked) -> Order {
    Order {
        part: a.part().into(),
        opcode: opcode(a),
        mode: a.mode(),
        address: 0x123,
        cr2: 8,
        wanted: Bytes::one(),
    }
}

// The bytes of opcode and address.
const FRONT: usize = 4;

// The bytes of a write that so many clocks hold beside opcode and address; a read has none.
fn bytes_in(a: Asked) -> Bytes {
    let all = Clocks::stated(a.clocks as usize);
    let front = bytes_to_clocks(Bytes::stated(FRONT), a.wires);
    if a.what == What::Write && front <= all {
        clocks_to_bytes(all - front, a.wires)
    } else {
        Bytes::none()
    }
}

// The samples of the command. Behind what the host builds all wires stay low: a read goes on, and a write has its last byte
// cut.
pub fn build(a: Asked, written: &mut [u8], samples: &mut [u8]) {
    fill_by(written, |i| byte_at(i));
    if let Some(written) = written.get(..bytes_in(a).in_bytes()) {
        let _ = host::build(order(a), written, samples);
    }
}

// One transaction in chunks, and its answer. A record and what is lent with it come one by one, here and below, as the calls of the
// device have them.
fn chunked(
    d: Device,
    chunk: usize,
    memory: &mut [u8],
    area: &mut [u8],
    samples: &[u8],
    output: &mut [u8],
) -> Answer
    requires { 0 < chunk }
{
    let mut e = device::open(d, memory, area).device;
    for (clocks, room) in samples.chunks(chunk).zip(output.chunks_mut(chunk)) {
        e = device::feed(e, memory, area, clocks, room).device;
    }
    device::close(e, memory, area).answer
}

// One transaction, in one call or in chunks, and whether it was answered 0.
pub fn is_clocked(
    d: Device,
    chunk: Option<usize>,
    memory: &mut [u8],
    area: &mut [u8],
    samples: &[u8],
    output: &mut [u8],
) -> bool {
    let answer = match chunk {
        Some(n) if n > 0 => chunked(d, n, memory, area, samples, output),
        _ => device::transact(d, memory, area, samples, output).answer,
    };
    answer == Answer::Done
}

// How many of so many of the same call were answered 0. They are counted by hand: with `filter(|_| is_done()).count()`, over a
// closure that changes what it holds, the proof does not close.
pub fn answered<F: FnMut() -> bool>(repeats: u32, mut is_done: F) -> u32
    requires { F.IsAlwaysCallable is_done }
    ensures { result ≤ repeats }
{
    let mut done = 0;
    for call in 0..repeats {
        if is_done() {
            done += 1;
        }
    }
    done
}

// The clocks of so many calls.
pub fn total(done: u32, clocks: u32) -> u64 {
    u64::from(done) * u64::from(clocks)
}
