// Builds one command from words, `drive P 0B 4 000123 --read 4`, and shows its samples, its clocks and its bytes, or
// writes it as a record of a tape. What cannot be built is told on standard error (D43).
#![tactic(auto)]

use buffers::Page;
use drive_arguments::{Asked, Fault, ended, nothing_asked, take_word};
use drive_rows::show;
use drive_texts::{put_long, put_refusal, put_wrong};
use std::env::{Env, FillError};
use std::fmt;
use tape::{Kind, MOST_SAMPLES};
use text::{flush, flush_to};
use units::Clocks;

// Word `i` of the command line, or nothing where there is none. One too long for the buffer is wrong.
fn hear(
    rt: &impl Env,
    a: Asked,
    i: usize,
    word: &mut [u8],
    written: &mut Page,
) -> Result<Option<Asked>, Fault> {
    match rt.arg(i, word) {
        Ok(n) => Ok(Some(take_word(a, &word[..n], written)?)),
        Err(FillError::TooLong) => Err(Fault::Wrong(a.due, 0)),
        Err(FillError::NotPresent) => Ok(None),
    }
}

// All words, to the last or to one that is wrong.
fn hear_all(rt: &impl Env, word: &mut [u8], written: &mut Page) -> Result<Asked, Fault> {
    let mut a = nothing_asked();
    for i in 1..usize::MAX {
        let Some(next) = hear(rt, a, i, word, written)? else {
            break;
        };
        a = next;
    }
    ended(a)
}

// A record: the length of its payload, its kind and the payload.
fn put_record(page: &mut Page, kind: Kind, payload: &[u8]) {
    page.put_all(&((payload.len() % 65536) as u16).to_le_bytes());
    page.put_all(&u16::from(kind).to_le_bytes());
    page.put_all(payload);
}

// The records of a tape, with a fresh chip before the transaction where one is asked for. A transaction on it is shorter
// than others may be.
fn write_tape(page: &mut Page, a: Asked, samples: &[u8]) {
    if MOST_SAMPLES < samples.len() {
        put_long(page, Clocks::of_samples(samples));
        flush_to(2, page);
        return;
    }
    if let Some(n) = a.fresh {
        put_record(page, Kind::Fresh, &[a.order.part, n]);
    }
    put_record(page, Kind::Transaction, samples);
    flush(page);
}

// What was built, in words or as a tape.
fn tell(page: &mut Page, a: Asked, written: &[u8], samples: &[u8]) {
    if a.tape {
        write_tape(page, a, samples)
    } else {
        show(page, a.order, Clocks::of_samples(samples), written, samples)
    }
}

fn build(page: &mut Page, a: Asked, written: &[u8], samples: &mut [u8]) {
    match host::build(a.order, written, samples) {
        Ok(clocks) => {
            let built = samples.get(..clocks.in_clocks()).unwrap_or(&[]);
            tell(page, a, written, built)
        }
        Err(answer) => {
            put_refusal(page, a.order, answer);
            flush_to(2, page);
        }
    }
}

fn drive(rt: &impl Env, page: &mut Page, word: &mut [u8], written: &mut Page, samples: &mut [u8]) {
    match hear_all(rt, word, written) {
        Ok(asked) => build(page, asked, written.written(), samples),
        Err(fault) => {
            put_wrong(page, fault, word);
            flush_to(2, page);
        }
    }
}

fn main(rt: HostRuntime) {
    let mut text = io::large_buffer();
    let mut word = io::large_buffer();
    let mut bytes = io::large_buffer();
    let mut samples = io::large_buffer();
    let mut page = Page::begun(&mut text, 0);
    let mut written = Page::begun(&mut bytes, 0);
    drive(&rt, &mut page, &mut word, &mut written, &mut samples);
}
