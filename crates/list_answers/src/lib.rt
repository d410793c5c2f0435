// The answer of a record, by number and name, and the rule that decides it.
#![tactic(auto)]

use commands::plans::{Address, address_of};
use kinds::{Kind, Target};
use list_views::{View, is_addressed};
use record::Answer;
use std::fmt;
use std::fmt::Write;
use text::Page;

// What four wires carry at most.
const MOST_SAMPLE: u8 = 15;

// An answer by number and name.
pub fn put_named(page: &mut Page, a: Answer) {
    write!(page, "{} {a}: ", u8::from(a));
}

// The front of the line on it.
pub fn put_answer(page: &mut Page, a: Answer) {
    page.write_str("  answer    ");
    put_named(page, a);
}

// What a write is short of.
fn lacking(k: Kind) -> &'static str {
    match k {
        Kind::Unknown | Kind::Plain(_) | Kind::Read(_) => "",
        Kind::Write(Target::Register(_)) => "select rose before all bytes of the register came.\n",
        Kind::Write(Target::Mode) => "select rose before all bits of the register came.\n",
        Kind::Write(Target::Memory(_) | Target::Area) => {
            "select rose before the write had one whole data byte.\n"
        }
    }
}

// Which of the rules on short transactions it was.
fn short_of(v: View) -> &'static str {
    if v.opcode.is_none() {
        "select rose before all 8 command bits came.\n"
    } else if v.address.is_none() && is_addressed(v.setting, v.kind) {
        "select rose before all 24 address bits came.\n"
    } else {
        lacking(v.kind)
    }
}

// Why the address is refused.
fn misplaced(k: Kind) -> &'static str {
    match address_of(k) {
        Address::Absent => "the command has no address.\n",
        Address::InMemory => "the address is past the end of the memory.\n",
        Address::InArea => "the address is past the end of the area.\n",
        Address::InMap => "no register has this address.\n",
        Address::LowNibbleZero => "the low four bits of the address are not 0.\n",
        Address::Ignored => "the address is ignored.\n",
    }
}

// What became of a command that was done. A register write of the MRAM had the latch up, or it would not be done,
// and leaves it down; the PSRAM has no latch.
fn outcome(k: Kind) -> &'static str {
    match k {
        Kind::Unknown => "",
        Kind::Plain(_) => "no rule is against it, and the command is carried out.\n",
        Kind::Read(_) => "no rule is against it, and every data clock is driven.\n",
        Kind::Write(Target::Register(_)) => {
            "no rule is against it, the value is written, and the write latch goes down.\n"
        }
        Kind::Write(Target::Mode) => "no rule is against it, and the value is written.\n",
        Kind::Write(Target::Memory(_) | Target::Area) => {
            "no rule is against it, and each whole byte that is not protected is stored.\n"
        }
    }
}

// Which sample no four wires carry.
fn put_sample(page: &mut Page, samples: &[u8]) {
    let Some((i, x)) = samples.iter().enumerate().find(|(_, x)| MOST_SAMPLE < **x) else {
        return;
    };
    writeln!(
        page,
        "clock {} has the sample {x:02X}, and four wires carry no more than {MOST_SAMPLE:02X}.",
        i + 1
    );
}

// The rule that decides a transaction, where it names no sample.
fn rule(v: View, a: Answer) -> &'static str {
    match a {
        Answer::Done => outcome(v.kind),
        Answer::Size => "clocks, part, memory or buffers have a size that cannot be.\n",
        Answer::Sample => "",
        Answer::State => "the chip holds registers or a mode that no chip has.\n",
        Answer::Short => short_of(v),
        Answer::Unknown => "the part has no such opcode in this bus mode.\n",
        Answer::Asleep => "the chip sleeps, and hears no command but wake, AB.\n",
        Answer::Address => misplaced(v.kind),
        Answer::Latch => "the command needs the write latch up, and it is down.\n",
        Answer::Protected => "every whole data byte is for a protected place, so none is stored.\n",
        Answer::Reserved => "a register must not have the value that came, and none is written.\n",
        Answer::Long => "clocks came after the last one that the command takes.\n",
        Answer::Unarmed => "the transaction before was no reset enable, 66, that was answered 0.\n",
        Answer::Turn => {
            "the call came out of turn: one is open where it wants none, or none is where it wants one.\n"
        }
    }
}

// The rule that decides a transaction.
pub fn put_rule(page: &mut Page, v: View, samples: &[u8], a: Answer) {
    if a == Answer::Sample {
        put_sample(page, samples)
    } else {
        page.write_str(rule(v, a))
    }
}
