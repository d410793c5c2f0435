// The end of the list.
#![tactic(auto)]

use list_rows::Count;
use std::fmt;
use std::fmt::Write;
use tape::{Entry, Fault};
use tape_session::Stop;
use text::Page;
use units::Bytes;

fn put_cut(page: &mut Page, tape: &[u8], offset: usize) {
    let rest = Bytes::stated(tape.len().saturating_sub(offset));
    writeln!(
        page,
        "the record is cut short, the tape ends after {} of it.",
        Count::of_bytes(rest)
    );
}

// What is wrong with a bad record.
fn put_fault(page: &mut Page, fault: Fault, tape: &[u8], offset: usize) {
    match fault {
        Fault::Cut => put_cut(page, tape, offset),
        Fault::Strange => page.write_str("the kind is unknown, there are 1, 2 and 3.\n"),
        Fault::Samples => {
            page.write_str("the payload is wrong, a transaction has at most 4096 samples.\n")
        }
        Fault::Power => page.write_str("the payload is wrong, a power cycle has none.\n"),
        Fault::Chip => page.write_str(
            "the payload is wrong, a fresh chip has a part, 1, 2 or 3, and n, 10 to 15.\n",
        ),
    }
}

// What a record lacks that is not played though it is a good one.
fn lacking(e: Entry) -> &'static str {
    match e {
        Entry::Transaction => "a transaction, and no chip is in the socket yet.\n",
        Entry::PowerCycle => "a power cycle, and no chip is in the socket yet.\n",
        Entry::Fresh(_) => "no bench has room for this chip.\n",
    }
}

fn put_bad(page: &mut Page, offset: usize) {
    write!(page, "\nbad record at offset {offset}: ");
}

fn put_end(page: &mut Page, k: u64) {
    writeln!(page, "\nend {}", Count::of_records(k));
}

// The last lines, after `k` records: the end of the tape, or why the record at an offset is not played.
pub fn put_last(page: &mut Page, k: u64, why: Stop, tape: &[u8], offset: usize) {
    match why {
        Stop::End => put_end(page, k),
        Stop::Bad(fault) => {
            put_bad(page, offset);
            put_fault(page, fault, tape, offset)
        }
        Stop::Unready(entry) => {
            put_bad(page, offset);
            page.write_str(lacking(entry))
        }
    }
}
