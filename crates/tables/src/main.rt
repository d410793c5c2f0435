// Prints the tables of docs/MODEL.md from the code that is proved equal to the definitions: the limits of the parts, the
// commands of each family, the register maps, and the lengths and shares by register value. A row is a function of its own.
#![tactic(auto)]

use commands::plans::{Address, Body, address_of, body_of, later_wires, wait_of};
use commands::registers::register_at;
use kinds::{Kind, Source, is_unknown};
use opcodes::kind_of;
use parts::{Family, Part, PartM, group_length, share, wrap_length};
use std::fmt;
use std::fmt::Write;
use text::{Page, flush};
use units::Wires;

// ---- the commands

// The bus modes, by the number of their wires.
const MODES: [(u8, Wires); 3] = [(1, Wires::One), (2, Wires::Two), (4, Wires::Four)];

// The kind of an opcode in the first bus mode that has it.
fn kind_in(f: Family, opcode: u8) -> Option<Kind> {
    MODES
        .iter()
        .map(|(_, w)| kind_of(f, *w, opcode))
        .find(|k| !is_unknown(*k))
}

// The bus modes that have it.
fn put_modes(page: &mut Page, f: Family, opcode: u8) {
    write!(page, " | ");
    for (digit, w) in MODES {
        if !is_unknown(kind_of(f, w, opcode)) {
            write!(page, "{digit} ");
        }
    }
}

// The wait in each of them. That of 4B, which stands in configuration 2, is shown as a fresh chip has it.
fn put_waits(page: &mut Page, f: Family, opcode: u8) {
    write!(page, " | ");
    for (_, w) in MODES {
        let k = kind_of(f, w, opcode);
        if !is_unknown(k) {
            write!(page, "{} ", wait_of(k, w, PartM::FRESH_CR2).in_clocks());
        }
    }
}

// On which wires all but the command travels, and what the address names.
fn put_plan(page: &mut Page, k: Kind) {
    let later = match later_wires(k, Wires::One) {
        Wires::One | Wires::Two => "bus mode",
        Wires::Four => "four wires",
    };
    let address = match address_of(k) {
        Address::Absent => "none",
        Address::InMemory => "memory",
        Address::InArea => "area",
        Address::InMap => "map",
        Address::LowNibbleZero => "low four bits 0",
        Address::Ignored => "ignored",
    };
    write!(page, "| {later} | {address}");
}

// The data; of 65 that of the register at 00h.
fn put_body(page: &mut Page, b: Body) {
    match b {
        Body::Nothing => writeln!(page, "| none |"),
        Body::FixedRead(n) => writeln!(page, "| read {} |", n.in_bytes()),
        Body::AnyRead => writeln!(page, "| read any |"),
        Body::FixedWrite(n) => writeln!(page, "| write {} |", n.in_bytes()),
        Body::AnyWrite => writeln!(page, "| write any |"),
    }
}

// A command of a family; the size of its data is that of a part of it.
fn command_row(page: &mut Page, p: Part, opcode: u8) {
    let f = p.family();
    let Some(k) = kind_in(f, opcode) else {
        return;
    };
    write!(page, "| {opcode:02X} | {k}");
    put_modes(page, f, opcode);
    put_plan(page, k);
    put_waits(page, f, opcode);
    put_body(page, body_of(p, k, 0));
}

fn put_commands(page: &mut Page, p: Part, parts: &str) {
    writeln!(page, "\n### Commands of {parts}\n");
    page.write_str(
        "| opcode | command | bus modes | all but the command on | address | wait in each mode, clocks | data, bytes |\n|---|---|---|---|---|---|---|\n",
    );
    for opcode in 0..=255 {
        command_row(page, p, opcode);
    }
}

// ---- the parts

fn part_row(page: &mut Page, p: Part) {
    writeln!(
        page,
        "| {} | {p} | {} | {} | {} | {} | {} |",
        u8::from(p),
        p.least(),
        p.most(),
        p.area().in_bytes(),
        p.section().in_bytes(),
        p.wrap_codes()
    );
}

// The parts that have a row which part M32 has: part M has it too, or not.
fn holders(too: bool) -> &'static str {
    if too { "M, M32" } else { "M32" }
}

// ---- the register map

// A register of part M32, whose map has all that part M's has.
fn map_row(page: &mut Page, address: u32) {
    let Some(r) = register_at(Part::M32, address) else {
        return;
    };
    let k = Kind::Read(Source::Register(r));
    let too = register_at(Part::M, address).is_some();
    write!(page, "| {address:06X} | {} | {k} ", holders(too));
    put_body(page, body_of(Part::M32, k, 0));
}

// ---- lengths and shares

fn number_row(page: &mut Page, code: u8, n: usize) {
    writeln!(page, "| {code} | {n} |");
}

// A code of the groups of part M32, which has all that part M has.
fn wrap_row(page: &mut Page, code: u8) {
    let too = code < Part::M.wrap_codes();
    writeln!(
        page,
        "| {code} | {} | {} |",
        holders(too),
        wrap_length(code).in_bytes()
    );
}

// ---- the tables

// All of them. The page has room for all.
fn put_tables(page: &mut Page) {
    page.write_str(
        "\n### Parts\n\n| number | part | n from | n to | area, bytes | section, bytes | codes in CR3 |\n|---|---|---|---|---|---|---|\n",
    );
    for p in [Part::M, Part::P, Part::M32] {
        part_row(page, p);
    }
    put_commands(page, Part::M, "parts M and M32");
    put_commands(page, Part::P, "part P");
    page.write_str(
        "\n### Registers by address, for 65\n\n| address | on part | register | data, bytes |\n|---|---|---|---|\n",
    );
    for address in 0..256 {
        map_row(page, address);
    }
    page.write_str(
        "\n### Protected memory of parts M and M32, by status bits 4 to 2\n\n| code | 64ths |\n|---|---|\n",
    );
    for code in 0..8 {
        number_row(page, code, share(code * 4));
    }
    page.write_str(
        "\n### Groups of reads of parts M and M32, by CR3[2:0]\n\n| code | on part | bytes |\n|---|---|---|\n",
    );
    for code in 0..Part::M32.wrap_codes() {
        wrap_row(page, code);
    }
    page.write_str("\n### Groups of part P, by MR0[6:5]\n\n| code | bytes |\n|---|---|\n");
    for code in 0..4 {
        number_row(page, code, group_length(code * 32).in_bytes());
    }
}

fn main() {
    let mut buffer = [0; 8192];
    let mut page = Page::begun(&mut buffer, 0);
    put_tables(&mut page);
    flush(&mut page);
}
