// The records of a tape, played and printed for the comparison: of each the line with all that it left.
#![tactic(auto)]

use against_columns::{call_columns, chip, output_columns};
use bench_columns::{digest_column, fill};
use bench_lines::{last_line, verdict};
use record::{Answer, Outcome};
use std::fmt;
use std::fmt::Write;
use tape::{Entry, MOST_SAMPLES, Socket};
use tape_reader::Reader;
use tape_session::{TURNS, Turn};
use text::Page;

// The bytes of output past the samples, which a call is to leave alone.
pub const SPARE: usize = 3;

fn output_of(page: &mut Page, e: Entry, answer: Answer, out: &[u8], clocked: &[u8]) {
    match e {
        Entry::Transaction => output_columns(page, answer, out, clocked),
        Entry::PowerCycle | Entry::Fresh(_) => page.write_str(" - - -"),
    }
}

fn outcome(page: &mut Page, k: u64, o: Outcome) {
    call_columns(page, k, o.answer, o.counts);
    chip(page, o.device);
}

// Digests of the chip's part of memory and area.
fn stores(page: &mut Page, s: Socket, memory: &[u8], area: &[u8]) {
    let memory = memory.get(..s.memory.in_bytes());
    let area = area.get(..s.area.in_bytes());
    let (Some(memory), Some(area)) = (memory, area) else {
        return;
    };
    digest_column(page, memory);
    digest_column(page, area);
}

// The output comes with the clocks of the record and is cut here: in the loop below, a part of what is lent for one turn has no lifetime
// of its own.
fn line(page: &mut Page, k: u64, t: Turn, long: usize, memory: &[u8], area: &[u8], out: &[u8]) {
    outcome(page, k, t.outcome);
    stores(page, t.chip.socket, memory, area);
    let clocked = out.get(..long).unwrap_or(&[]);
    output_of(page, t.entry, t.outcome.answer, out, clocked);
    writeln!(page);
}

// Every record, to the end or to one that is bad. A payload longer than any transaction has is a bad record; the output that is
// lent for any other is longer than its samples. The loop is its own: `bench_play` lends one output for all records, and a closure
// that is given all that is lent is no plainer. Memory, area and output are lent apart, as `tape_session::advance` and the calls of
// the device have them.
pub fn put_turns(
    page: &mut Page,
    tape: &[u8],
    memory: &mut [u8],
    area: &mut [u8],
    output: &mut [u8],
) {
    let mut session = tape_session::start();
    for before in 0..TURNS {
        let long = Reader::opened(tape, session.at).payload().len();
        if MOST_SAMPLES < long {
            last_line(page, b"bad", session.at as u64);
            break;
        }
        let Some(out) = output.get_mut(..long + SPARE) else {
            break;
        };
        fill(out);
        match tape_session::advance(session, tape, memory, area, out) {
            Ok(turn) => {
                line(page, before + 1, turn, long, memory, area, out);
                text::flush_full(page);
                session = turn.session;
            }
            Err(why) => {
                verdict(page, why, before, session.at);
                break;
            }
        }
    }
    text::flush_full(page);
}
