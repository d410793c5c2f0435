// The rows on the clocks of a transaction: the bus, the five counts, and the data.
#![tactic(auto)]

use counts::Counts;
use kinds::{Kind, is_unknown};
use list_rows::{Count, put_row};
use list_views::{View, gather, phases_of};
use record::{Answer, is_done};
use std::fmt;
use std::fmt::Write;
use text::Page;
use units::{Clocks, Wires, clocks_to_bytes};

// The bus mode. Some commands go on with more wires than they began.
fn put_bus(page: &mut Page, v: View) {
    let w = v.setting.wires;
    let more = if w == v.later {
        ""
    } else {
        ", and four after the command"
    };
    writeln!(page, "  bus       {w}{more}");
}

// A row with one count, not yet ended.
fn put_count(page: &mut Page, label: &str, c: Clocks) {
    write!(page, "  {label:10}{:4}", Count::of_clocks(c));
}

// A command by name, or an opcode that the part has not.
fn put_command_name(page: &mut Page, v: View) {
    let s = v.setting;
    if is_unknown(v.kind) {
        write!(page, "no command of {} on {}", s.part, s.wires)
    } else {
        write!(page, "{}", v.kind)
    }
}

// The command, by opcode and name where all its bits came.
fn put_command(page: &mut Page, v: View, c: Clocks) {
    put_count(page, "command", c);
    if let Some(opcode) = v.opcode {
        write!(page, ", {opcode:02X} ");
        put_command_name(page, v);
    }
    writeln!(page);
}

// The address, where all its bits came.
fn put_address(page: &mut Page, v: View, c: Clocks) {
    put_count(page, "address", c);
    if let Some(address) = v.address {
        write!(page, ", {address:06X}");
    }
    writeln!(page);
}

// The data clocks, and the whole bytes that they carry.
fn put_data_count(page: &mut Page, w: Wires, c: Clocks) {
    put_count(page, "data", c);
    writeln!(page, ", {}", Count::of_bytes(clocks_to_bytes(c, w)));
}

fn put_plain_count(page: &mut Page, label: &str, c: Clocks) {
    put_count(page, label, c);
    writeln!(page);
}

// The bus and the five counts.
pub fn put_counts(page: &mut Page, v: View, c: Counts) {
    put_bus(page, v);
    put_command(page, v, c.command);
    put_address(page, v, c.address);
    put_plain_count(page, "wait", c.wait);
    put_data_count(page, v.later, c.body);
    put_plain_count(page, "rest", c.rest);
}

// The whole bytes that clocks carry. `bits` says what bits a clock has.
fn put_carried<F: Fn(u8) -> u8>(page: &mut Page, label: &str, clocks: &[u8], w: Wires, bits: F)
    requires { F.IsAlwaysCallable bits }
{
    let mut buffer = io::buffer();
    let mut bytes = Page::begun(&mut buffer, 0);
    gather(&mut bytes, clocks, w, bits);
    put_row(page, label, bytes.written());
}

// The data: of a write what came, of a read that was done what was driven.
pub fn put_data(page: &mut Page, v: View, c: Counts, a: Answer, samples: &[u8], output: &[u8]) {
    let w = v.later;
    if matches!(v.kind, Kind::Write(_)) {
        put_carried(page, "  written   ", phases_of(c, samples).body, w, |x| x)
    } else if is_done(a) {
        let driven = phases_of(c, output).body;
        put_row(page, "  driven    ", driven);
        put_carried(page, "  read      ", driven, w, |x| wires::seen(x, w))
    } else {}
}
