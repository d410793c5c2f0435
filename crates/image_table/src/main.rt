// Prints the table of docs/IMAGE.md, and the same offsets as lines of C, for include/tondravik.h: from the code that is proved
// equal to the table of the definitions.
#![tactic(auto)]

use image::{Field, IMAGE, offset_of, size_of};
use std::fmt;
use std::fmt::Write;
use text::{Page, flush};

// The fields in their order, each with its name and its word in C; spare bytes have no word.
const FIELDS: [(Field, &str, Option<&str>); 27] = [
    (Field::Part, "part", Some("PART")),
    (Field::N, "n", Some("N")),
    (Field::BesideMake, "spare", None),
    (Field::Status, "status", Some("STATUS")),
    (
        Field::AreaProtection,
        "area protection",
        Some("AREA_PROTECTION"),
    ),
    (
        Field::Configuration1,
        "configuration 1",
        Some("CONFIGURATION_1"),
    ),
    (
        Field::Configuration2,
        "configuration 2",
        Some("CONFIGURATION_2"),
    ),
    (
        Field::Configuration3,
        "configuration 3",
        Some("CONFIGURATION_3"),
    ),
    (
        Field::Configuration4,
        "configuration 4",
        Some("CONFIGURATION_4"),
    ),
    (Field::ModeRegister, "mode register", Some("MODE_REGISTER")),
    (Field::BusMode, "bus mode", Some("BUS_MODE")),
    (Field::Latch, "latch, a flag", Some("LATCH")),
    (Field::Armed, "armed, a flag", Some("ARMED")),
    (Field::Asleep, "asleep, a flag", Some("ASLEEP")),
    (Field::Toggle, "toggle, a flag", Some("TOGGLE")),
    (
        Field::DeviceIdentity,
        "device identity",
        Some("DEVICE_IDENTITY"),
    ),
    (Field::UniqueNumber, "unique number", Some("UNIQUE_NUMBER")),
    (Field::SerialNumber, "serial number", Some("SERIAL_NUMBER")),
    (Field::BesideIdentities, "spare", None),
    (
        Field::Selected,
        "selected: a transaction is open, a flag",
        Some("SELECTED"),
    ),
    (Field::Opcode, "its opcode", Some("OPCODE")),
    (Field::BesideOpcode, "spare", None),
    (Field::Clocks, "its clocks so far", Some("CLOCKS")),
    (Field::Address, "its address", Some("ADDRESS")),
    (
        Field::Number,
        "the number that is being gathered",
        Some("NUMBER"),
    ),
    (
        Field::Value,
        "the bytes of a register write so far",
        Some("VALUE"),
    ),
    (Field::BesideValue, "spare", None),
];

// A row of the table.
fn page_row(page: &mut Page, f: Field, name: &str, word: Option<&str>) {
    write!(page, "| {} | {} | {name} |", offset_of(f), size_of(f));
    if let Some(word) = word {
        write!(page, " `TONDRAVIK_AT_{word}`");
    }
    writeln!(page, " |");
}

// A line of the header.
fn header_row(page: &mut Page, f: Field, word: &str) {
    writeln!(page, "    TONDRAVIK_AT_{word} = {},", offset_of(f));
}

// The table, and the lines for the header; the number of all bytes is the last. The page has room for all of it.
fn put_tables(page: &mut Page) {
    write!(
        page,
        "| offset | bytes | field | in C |\n|---|---|---|---|\n"
    );
    for (f, name, word) in FIELDS {
        page_row(page, f, name, word);
    }
    for (f, _, word) in FIELDS {
        if let Some(word) = word {
            header_row(page, f, word);
        }
    }
    writeln!(page, "    TONDRAVIK_IMAGE = {IMAGE}");
}

fn main() {
    let mut buffer = [0; 4096];
    let mut page = Page::begun(&mut buffer, 0);
    put_tables(&mut page);
    flush(&mut page);
}
