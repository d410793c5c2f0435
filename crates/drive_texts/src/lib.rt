// What is said of a command that cannot be built: a word that is wrong or missing, and each refusal.
#![tactic(auto)]

use commands::plans::Body;
use drive_arguments::Fault;
use host_order::{Order, body_asked, kind_asked};
use list_answers::put_named;
use list_rows::Count;
use parts::Part;
use record::{Answer, mode_wires};
use std::fmt;
use std::fmt::Write;
use text::Page;
use units::{Bytes, Clocks};

// ---- words

const USAGE: &str =
    "drive PART OPCODE MODE ADDRESS [--read N] [--write HEX] [--wait HEX] [--tape [--fresh N]]\n\
    \x20 PART is M, M32 or P, OPCODE hexadecimal, MODE 1, 2 or 4 wires, ADDRESS hexadecimal or - for none\n\
    \x20 --read N     so many bytes to read, in decimal\n\
    \x20 --write HEX  the bytes to write, two digits each\n\
    \x20 --wait HEX   configuration 2, the wait of 4B; 8 without it, as in a fresh chip\n\
    \x20 --tape       writes a tape record and no text\n\
    \x20 --fresh N    before it a record with a fresh chip of 2^N bytes, N from 10 to 15\n";

// What was due, and the word that is not that, or that there is none.
fn put_fault(page: &mut Page, fault: Fault, word: &[u8]) {
    match fault {
        Fault::Wrong(due, long) => {
            write!(page, "{due}, and not \"");
            page.put_all(word.get(..long).unwrap_or(&[]));
            writeln!(page, "\".")
        }
        Fault::Missing(due) => writeln!(page, "{due}, and it is missing."),
        Fault::Untaped => writeln!(page, "--fresh goes with --tape, and it is missing."),
    }
}

// That, and how a command is written. The wrong word is at the front of `word`.
pub fn put_wrong(page: &mut Page, fault: Fault, word: &[u8]) {
    page.write_str("drive: ");
    put_fault(page, fault, word);
    page.write_str(USAGE);
}

// ---- refusals

// The text on too few bytes, by the data of the command. Texts on a register end in its size.
fn few(b: Body) -> &'static str {
    match b {
        Body::Nothing => "",
        Body::FixedRead(_) => "--read is missing or 0, and the register has",
        Body::AnyRead => "--read is missing or 0, and the command reads bytes",
        Body::FixedWrite(_) => "--write has too few bytes, and the register has",
        Body::AnyWrite => "--write is missing, and the command writes bytes",
    }
}

// The same on too many.
fn many(b: Body) -> &'static str {
    match b {
        Body::Nothing => "the command has no data, and takes neither --read nor --write",
        Body::FixedRead(_) => "--read asks for too many bytes, and the most here is",
        Body::FixedWrite(_) => "--write has too many bytes, and the register has",
        Body::AnyRead | Body::AnyWrite => "",
    }
}

// The bytes of a command whose data has a size.
fn size_of(b: Body) -> Option<Bytes> {
    match b {
        Body::FixedRead(size) | Body::FixedWrite(size) => Some(size),
        Body::Nothing | Body::AnyRead | Body::AnyWrite => None,
    }
}

fn put_count(page: &mut Page, text: &str, b: Body) {
    match size_of(b) {
        Some(size) => writeln!(page, "{text} {}.", Count::of_bytes(size)),
        None => writeln!(page, "{text}."),
    }
}

// An opcode that the part has not in this mode.
fn put_unknown(page: &mut Page, o: Order) {
    writeln!(
        page,
        "{} has no command {:02X} on {}.",
        Part::of(o.part),
        o.opcode,
        mode_wires(o.mode)
    );
}

fn put_reason(page: &mut Page, o: Order, a: Answer) {
    let b = body_asked(o, kind_asked(o));
    match a {
        Answer::Size => page.write_str(
            "the command takes more than the 65,535 clocks that a transaction has.\n",
        ),
        Answer::Short => put_count(page, few(b), b),
        Answer::Unknown => put_unknown(page, o),
        Answer::Address => {
            page.write_str("the address has more than 24 bits, it is FFFFFF at most.\n")
        }
        Answer::Reserved => {
            page.write_str("the wait of this command has four bits, --wait is 0F at most.\n")
        }
        Answer::Long => put_count(page, many(b), b),
        _ => {}
    }
}

// Why a command is refused.
pub fn put_refusal(page: &mut Page, o: Order, a: Answer) {
    page.write_str("drive: refused, answer ");
    put_named(page, a);
    put_reason(page, o, a);
}

// More samples than a record of the tape has.
pub fn put_long(page: &mut Page, c: Clocks) {
    writeln!(
        page,
        "drive: a transaction on a tape has at most 4,096 samples, and this has {}.",
        c.in_clocks()
    );
}
