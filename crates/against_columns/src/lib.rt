// What a record left, in few characters: the chip, digests, and the driven samples.
#![tactic(auto)]

use bench_columns::{digest_column, five};
use counts::Counts;
use parts::Part;
use record::{Answer, Device, is_refusal};
use std::fmt;
use std::fmt::Write;
use text::{Page, put_bytes};

// The number of a call, its answer and its five counts.
pub fn call_columns(page: &mut Page, k: u64, answer: Answer, counts: Counts) {
    write!(page, "{k} {}", u8::from(answer));
    five(page, counts);
}

// The name of the part; a number that is no part's has none.
fn part(page: &mut Page, d: Device) {
    page.write_str(match Part::try_from(d.make.part) {
        Ok(Part::M) => " M",
        Ok(Part::P) => " P",
        Ok(Part::M32) => " M32",
        Err(_) => "",
    });
}

// The chip's n and mode, and its latch, arming, sleep and toggle as digits.
fn state_columns(page: &mut Page, d: Device) {
    let v = d.volatile;
    write!(page, " {} {} ", d.make.n, v.mode);
    for flag in [v.latch, v.armed, v.asleep, v.toggle] {
        write!(page, "{}", u8::from(flag));
    }
}

// Status, area protection, configurations 1 to 4 and the mode register.
fn registers(page: &mut Page, d: Device) {
    let r = d.registers;
    bytes_column(
        page,
        &[r.status, r.protection, r.cr1, r.cr2, r.cr3, r.cr4, r.mr0],
    );
}

// Bytes behind a space, byte 0 first.
fn bytes_column(page: &mut Page, bytes: &[u8]) {
    page.put(b' ');
    put_bytes(page, bytes);
}

// The chip: its part, its state, its registers, its serial number.
pub fn chip(page: &mut Page, d: Device) {
    part(page, d);
    state_columns(page, d);
    registers(page, d);
    bytes_column(page, &d.identity.serial);
}

// The output from the first byte that is not 0 to the last one, behind the number of those before it.
fn driven(page: &mut Page, out: &[u8]) {
    let Some(from) = out.iter().position(|b| *b != 0) else {
        write!(page, " - -");
        return;
    };
    write!(page, " {from}");
    let rest = &out[from..];
    let undriven = rest.iter().rev().take_while(|b| **b == 0).count();
    bytes_column(page, &rest[..rest.len() - undriven]);
}

// A digest of all output that was lent, and what a transaction drove in its clocks: nothing where it was refused.
pub fn output_columns(page: &mut Page, answer: Answer, out: &[u8], clocked: &[u8]) {
    digest_column(page, out);
    if is_refusal(answer) {
        write!(page, " - -")
    } else {
        driven(page, clocked)
    }
}
