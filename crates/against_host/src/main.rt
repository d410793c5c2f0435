// Requests to the host half, one after the other on standard input, and for each one line with its answer, the number that
// it tells, and a digest of the whole buffer that was lent. The second program prints the same.
#![tactic(auto)]

use against_input::{Cut, play, take, take_head};
use bench_columns::{digest_column, fill, room};
use buffers::number_at;
use host_order::Order;
use record::Answer;
use std::fmt;
use std::fmt::Write;
use text::{Page, flush_full};
use units::Bytes;

// A call of the host half: a command becomes samples, or what was driven on so many wires becomes bytes.
#[derive(Clone, Copy)]
enum Call {
    Build(Order),
    Gather(u8),
}

// A call, the length of its data and the length of the buffer that is lent to it. The lengths stand without their buffers: they are read
// off the head before anything is cut to them (`turn`).
#[derive(Clone, Copy)]
struct Request {
    call: Call,
    long: usize,
    room: usize,
}

// The request that 24 bytes spell.
impl TryFrom<[u8; 24]> for Request {
    type Error = Cut;

    fn try_from(h: [u8; 24]) -> Result<Self, Cut> {
        let order = Order {
            part: h[1],
            opcode: h[2],
            mode: h[3],
            cr2: h[4],
            address: number_at(&h, 8),
            wanted: Bytes::stated(number_at(&h, 12) as usize),
        };
        let call = match h[0] {
            1 => Call::Build(order),
            2 => Call::Gather(h[1]),
            _ => return Err(Cut),
        };
        Ok(Request {
            call,
            room: number_at(&h, 16) as usize,
            long: number_at(&h, 20) as usize,
        })
    }
}

// What a call comes to: how many clocks or bytes it made.
fn called(c: Call, input: &[u8], buffer: &mut [u8]) -> Result<usize, Answer> {
    match c {
        Call::Build(order) => Ok(host::build(order, input, buffer)?.in_clocks()),
        Call::Gather(wires) => Ok(host::gather(wires, input, buffer)?.in_bytes()),
    }
}

// The line of request `k`, on a buffer of its room.
fn put_line(page: &mut Page, k: u64, c: Call, input: &[u8], buffer: &mut [u8]) {
    fill(buffer);
    let made = called(c, input, buffer);
    let answer = made.err().unwrap_or(Answer::Done);
    write!(page, "{k} {} {}", u8::from(answer), made.unwrap_or(0));
    digest_column(page, buffer);
    writeln!(page);
}

// Request `k`, where there is one, with its data, on a buffer of its room.
fn turn(page: &mut Page, k: u64, input: &mut [u8], buffer: &mut [u8]) -> Result<bool, Cut> {
    let Some(head) = take_head()? else {
        return Ok(false);
    };
    let r = Request::try_from(head)?;
    let input = input.get_mut(..r.long).ok_or(Cut)?;
    let buffer = buffer.get_mut(..r.room).ok_or(Cut)?;
    take(input)?;
    put_line(page, k, r.call, input, buffer);
    flush_full(page);
    Ok(true)
}

fn main() {
    let mut input = io::large_buffer();
    // a generated request has no more room than a few bytes over 65,536
    let mut buffer = room::<131072>();
    let mut text = io::large_buffer();
    play(&mut Page::begun(&mut text, 0), |page, k| {
        turn(page, k, &mut input, &mut buffer)
    });
}
