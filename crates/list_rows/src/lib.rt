// Rows of a paragraph: numbers with their units, and bytes in hexadecimal, folded.
#![tactic(auto)]

use std::fmt;
use std::fmt::Write;
use text::Page;
use units::{Bytes, Clocks};

// The most bytes of a row, and of a line of it.
const ROW: usize = 32;

const LINE: usize = 16;

// What stands before a further line of a row.
const FOLD: &str = "\n            ";

// A number with its unit, `3 clocks` or `1 clock`. A width is that of the number. It is a type of its own: Clocks and Bytes
// print themselves nowhere else, and records are counted in the same words.
#[derive(Clone, Copy)]
pub struct Count {
    number: u64,
    unit: &'static str,
}

// The unit stands in the name of each, as at the doors of `units`; a number of records has no type that could choose it.
impl Count {
    pub fn of_clocks(c: Clocks) -> Count {
        Count {
            number: c.in_clocks() as u64,
            unit: "clock",
        }
    }

    pub fn of_bytes(b: Bytes) -> Count {
        Count {
            number: b.in_bytes() as u64,
            unit: "byte",
        }
    }

    pub fn of_records(number: u64) -> Count {
        Count {
            number,
            unit: "record",
        }
    }
}

impl fmt::Display for Count {
    fn fmt<W: fmt::Write>(&self, f: &mut fmt::Formatter<W>) -> fmt::Result {
        let ending = if self.number == 1 { "" } else { "s" };
        self.number.fmt(f)?;
        write!(f, " {}{ending}", self.unit)
    }
}

// Bytes side by side, in hexadecimal.
#[derive(Clone, Copy, PartialEq, Eq)]
pub struct Cells<'a>(pub &'a [u8]);

impl fmt::Display for Cells<'_> {
    fn fmt<W: fmt::Write>(&self, f: &mut fmt::Formatter<W>) -> fmt::Result {
        let Cells(bytes) = self;
        for (i, b) in bytes.iter().enumerate() {
            let gap = if i == 0 { "" } else { " " };
            write!(f, "{gap}{b:02X}")?;
        }
        Ok(())
    }
}

// A row of bytes behind a label of twelve columns. Of more than 32 it shows the first 32, and says how many it leaves out.
pub fn put_row(page: &mut Page, label: &str, bytes: &[u8]) {
    if bytes.is_empty() {
        return;
    }
    page.write_str(label);
    for (i, line) in bytes.chunks(LINE).take(ROW / LINE).enumerate() {
        let fold = if i == 0 { "" } else { FOLD };
        write!(page, "{fold}{}", Cells(line));
    }
    if ROW < bytes.len() {
        write!(page, "{FOLD}and {} more", bytes.len() - ROW);
    }
    writeln!(page);
}
