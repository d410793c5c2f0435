// The words of a command as a driver engineer writes them, `P 0B 4 000123 --read 4`: part, opcode, mode and address,
// and then options in any order (D39).
#![tactic(auto)]

use buffers::Page;
use digits::{is_paired, number_in, put_pairs};
use host_order::Order;
use parts::{Part, PartM};
use std::fmt;
use units::Bytes;

// The word that comes next: one of the first four, an option, or what the option before takes.
#[derive(Clone, Copy, PartialEq, Eq)]
pub enum Due {
    Part,
    Opcode,
    Mode,
    Address,
    Option,
    Wanted,
    Written,
    Wait,
    Fresh,
}

// What it may be.
impl fmt::Display for Due {
    fn fmt<W: fmt::Write>(&self, f: &mut fmt::Formatter<W>) -> fmt::Result {
        f.write_str(match self {
            Due::Part => "PART is M, M32 or P",
            Due::Opcode => "OPCODE is one or two hexadecimal digits",
            Due::Mode => "MODE is 1, 2 or 4",
            Due::Address => "ADDRESS is up to eight hexadecimal digits, or - for none",
            Due::Option => "an option is --read, --write, --wait, --tape or --fresh",
            Due::Wanted => "--read takes a number of bytes in decimal",
            Due::Written => "--write takes pairs of hexadecimal digits",
            Due::Wait => "--wait takes one or two hexadecimal digits",
            Due::Fresh => "--fresh takes a number from 10 to 15",
        })
    }
}

// Why words are no command: the last of them, of so many bytes, is not what was due; or what was due is missing; or
// --tape is, where there is --fresh. The word itself cannot be in it: its buffer is lent anew for each word, and a fault that
// borrowed it would hold it for all of them.
#[derive(Clone, Copy, PartialEq, Eq)]
pub enum Fault {
    Wrong(Due, usize),
    Missing(Due),
    Untaped,
}

// What was asked so far, with the n of a fresh chip where there is --fresh, and what comes next. `tape` and `fresh` are two facts and no
// `Option` in an `Option`: the two words come in any order, and only `ended` tells whether they go together.
#[derive(Clone, Copy)]
pub struct Asked {
    pub order: Order,
    pub tape: bool,
    pub fresh: Option<u8>,
    pub due: Due,
}

// Before the first word. The wait is that of a fresh chip (D40). No part and no mode has the number 0: both are asked for before
// any option, and until both came `due` says so, and no order leaves `ended`.
pub fn nothing_asked() -> Asked {
    Asked {
        order: Order {
            part: 0,
            opcode: 0,
            mode: 0,
            address: 0,
            cr2: PartM::FRESH_CR2,
            wanted: Bytes::none(),
        },
        tape: false,
        fresh: None,
        due: Due::Part,
    }
}

// The part of a name.
fn part_in(word: &[u8]) -> Option<Part> {
    match word {
        [b'M' | b'm'] => Some(Part::M),
        [b'P' | b'p'] => Some(Part::P),
        [b'M' | b'm', b'3', b'2'] => Some(Part::M32),
        _ => None,
    }
}

// The mode of a digit, as the number that an order has for the C interface: as Wires it would be turned into that again.
fn mode_in(word: &[u8]) -> Option<u8> {
    match word {
        [b'1'] => Some(1),
        [b'2'] => Some(2),
        [b'4'] => Some(4),
        _ => None,
    }
}

// A number of so many hexadecimal digits at most.
fn hex_in(word: &[u8], digits: usize) -> Option<u32> {
    if word.len() <= digits {
        number_in(word, 16, u32::MAX)
    } else {
        None
    }
}

// A byte, in one or two of them.
fn byte_in(word: &[u8]) -> Option<u8> {
    u8::try_from(hex_in(word, 2)?).ok()
}

// The sizes of a chip that a tape has.
fn fresh_in(word: &[u8]) -> Option<u8> {
    u8::try_from(number_in(word, 10, 15)?)
        .ok()
        .filter(|n| 10 <= *n)
}

// What an option takes, and --tape nothing.
fn after_option(word: &[u8]) -> Option<Due> {
    match word {
        b"--read" => Some(Due::Wanted),
        b"--write" => Some(Due::Written),
        b"--wait" => Some(Due::Wait),
        b"--fresh" => Some(Due::Fresh),
        b"--tape" => Some(Due::Option),
        _ => None,
    }
}

// One word more, where it is what was due. The bytes of --write go to `written`.
fn taken(mut a: Asked, word: &[u8], written: &mut Page) -> Option<Asked> {
    a.due = match a.due {
        Due::Part => {
            a.order.part = part_in(word)?.into();
            Due::Opcode
        }
        Due::Opcode => {
            a.order.opcode = byte_in(word)?;
            Due::Mode
        }
        Due::Mode => {
            a.order.mode = mode_in(word)?;
            Due::Address
        }
        // A command without address has a dash for it.
        Due::Address => {
            if word != b"-".as_slice() {
                a.order.address = hex_in(word, 8)?;
            }
            Due::Option
        }
        Due::Option => {
            a.tape |= word == b"--tape".as_slice();
            after_option(word)?
        }
        Due::Wanted => {
            a.order.wanted = Bytes::stated(number_in(word, 10, u32::MAX)? as usize);
            Due::Option
        }
        Due::Written => {
            if !is_paired(word) {
                return None;
            }
            written.clear();
            put_pairs(written, word);
            Due::Option
        }
        Due::Wait => {
            a.order.cr2 = byte_in(word)?;
            Due::Option
        }
        Due::Fresh => {
            a.fresh = Some(fresh_in(word)?);
            Due::Option
        }
    };
    Some(a)
}

// One word more, or that it is not what was due.
pub fn take_word(a: Asked, word: &[u8], written: &mut Page) -> Result<Asked, Fault> {
    taken(a, word, written).ok_or(Fault::Wrong(a.due, word.len()))
}

// After the last word: all are there, and --fresh goes with --tape (D41).
pub fn ended(a: Asked) -> Result<Asked, Fault> {
    if a.due != Due::Option {
        Err(Fault::Missing(a.due))
    } else if a.fresh.is_some() && !a.tape {
        Err(Fault::Untaped)
    } else {
        Ok(a)
    }
}
