// The paragraph of a record: what it is, its clocks and data, what it changed, and its answer.
#![tactic(auto)]

use list_answers::{put_answer, put_rule};
use list_changes::{put_device, put_places};
use list_clocks::{put_counts, put_data};
use list_rows::Count;
use list_views::{View, view_of};
use parts::Part;
use record::{Answer, Device, Make, Outcome};
use std::fmt;
use std::fmt::Write;
use tape::Entry;
use text::Page;
use units::{Bytes, Clocks};

// A chip at a moment: its record, and the bytes that it has.
#[derive(Clone, Copy)]
pub struct State<'a> {
    pub device: Device,
    pub memory: &'a [u8],
    pub area: &'a [u8],
}

// What a record that was played came to: the chip before it and after it, what that answered, and of a transaction its samples
// and its output.
#[derive(Clone, Copy)]
pub struct Played<'a> {
    pub old: State<'a>,
    pub new: State<'a>,
    pub outcome: Outcome,
    pub samples: &'a [u8],
    pub output: &'a [u8],
}

// The front of a record's line: its number and offset.
pub fn put_head(page: &mut Page, k: u64, offset: usize) {
    write!(page, "\nrecord {k}, offset {offset}: ");
}

fn put_chip(page: &mut Page, make: Make) {
    writeln!(page, "fresh chip, {}, n = {}", Part::of(make.part), make.n);
}

fn put_sizes(page: &mut Page, memory: Bytes, area: Bytes) {
    writeln!(page, "  memory    {}", Count::of_bytes(memory));
    writeln!(page, "  area      {}", Count::of_bytes(area));
}

// A fresh chip, and the bytes that it has.
fn put_fresh(page: &mut Page, make: Make, new: State) {
    put_chip(page, make);
    put_sizes(page, Bytes::of_store(new.memory), Bytes::of_store(new.area));
    put_answer(page, Answer::Done);
    page.write_str("the chip is in the socket, with zero memory, area and identity.\n");
}

// What a record changed in the chip and in the bytes that it has.
fn put_changes(page: &mut Page, p: Played) {
    let Played { old, new, .. } = p;
    put_device(page, old.device, new.device);
    put_places(page, "memory", old.memory, new.memory);
    put_places(page, "area", old.area, new.area);
}

fn put_power(page: &mut Page, p: Played) {
    page.write_str("power cycle\n");
    put_changes(page, p);
    put_answer(page, p.outcome.answer);
    page.write_str("the power was off and is on again.\n");
}

// The line of a transaction, and the rows on its clocks.
fn put_clocked(page: &mut Page, v: View, p: Played) {
    let o = p.outcome;
    let clocks = Clocks::of_samples(p.samples);
    writeln!(page, "transaction, {}", Count::of_clocks(clocks));
    put_counts(page, v, o.counts);
    put_data(page, v, o.counts, o.answer, p.samples, p.output);
}

fn put_transaction(page: &mut Page, p: Played) {
    let o = p.outcome;
    let v = view_of(p.old.device, o.counts, p.samples);
    put_clocked(page, v, p);
    put_changes(page, p);
    put_answer(page, o.answer);
    put_rule(page, v, p.samples, o.answer);
}

// The paragraph of a record that was played, after its line's front.
pub fn put_played(page: &mut Page, e: Entry, p: Played) {
    match e {
        Entry::Transaction => put_transaction(page, p),
        Entry::PowerCycle => put_power(page, p),
        Entry::Fresh(make) => put_fresh(page, make, p.new),
    }
}
