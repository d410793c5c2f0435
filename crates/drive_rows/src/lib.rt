// A command that was built, for people: the same rows as a tape's list has, and the samples by phase (D42).
#![tactic(auto)]

use commands::plans::{Body, address_of, is_write, later_wires, wait_of};
use counts::Counts;
use host_order::{Order, body_asked, kind_asked};
use kinds::Kind;
use list_clocks::put_counts;
use list_rows::{Count, put_row};
use list_views::{View, phases_of, view_of};
use parts::Part;
use plan_in_force::address_length;
use record::{Device, Make, mode_wires};
use std::fmt;
use std::fmt::Write;
use text::{Page, flush, put_each};
use units::{Clocks, byte_clocks};

// The clocks of each phase: the data has what the others leave. The first three are those of `host_build::front_clocks`, which has their
// sum alone, by `front_of`; here each is a row.
fn counts_of(o: Order, k: Kind, all: Clocks) -> Counts {
    let w = mode_wires(o.mode);
    let command = byte_clocks(w);
    let address = address_length(address_of(k), later_wires(k, w));
    let wait = wait_of(k, w, o.cr2);
    Counts {
        command,
        address,
        wait,
        body: all.past(command).past(address).past(wait),
        rest: Clocks::none(),
    }
}

// A chip that hears the command: a fresh one of the part, in the mode.
fn chip_for(o: Order) -> Device {
    let make = Make {
        part: o.part,
        n: Part::of(o.part).least(),
    };
    Device::fresh(make, [0; 8], [0; 8]).in_mode(o.mode)
}

// The first line, and the rows on the clocks.
fn put_rows(page: &mut Page, v: View, c: Counts, all: Clocks) {
    writeln!(page, "{}, {}", v.setting.part, Count::of_clocks(all));
    put_counts(page, v, c);
}

// The samples of a phase behind a space, a digit each, where it has any.
fn put_phase(page: &mut Page, samples: &[u8]) {
    if samples.is_empty() {
        return;
    }
    page.put(b' ');
    put_each(page, samples, 1);
}

// All samples. The data alone may fill the page.
fn put_samples(page: &mut Page, samples: &[u8], c: Counts) {
    let phases = phases_of(c, samples);
    page.write_str("  samples  ");
    put_phase(page, phases.command);
    put_phase(page, phases.address);
    put_phase(page, phases.wait);
    flush(page);
    put_phase(page, phases.body);
    writeln!(page);
    flush(page);
}

// The bytes that a driver sends: the opcode, the address where there is one, the high byte first, and what it writes.
fn put_sent(bytes: &mut Page, v: View, b: Body, written: &[u8]) {
    if let Some(opcode) = v.opcode {
        bytes.put(opcode);
    }
    if let Some(address) = v.address {
        bytes.put_all(&address.to_be_bytes()[1..]);
    }
    if is_write(b) {
        bytes.put_all(written);
    }
}

fn put_bytes(page: &mut Page, v: View, b: Body, written: &[u8]) {
    let mut buffer = io::large_buffer();
    let mut bytes = Page::begun(&mut buffer, 0);
    put_sent(&mut bytes, v, b, written);
    put_row(page, "  bytes     ", bytes.written());
}

// Writes it all to standard output.
pub fn show(page: &mut Page, o: Order, all: Clocks, written: &[u8], samples: &[u8]) {
    let k = kind_asked(o);
    let c = counts_of(o, k, all);
    let v = view_of(chip_for(o), c, samples);
    put_rows(page, v, c, all);
    put_samples(page, samples, c);
    put_bytes(page, v, body_asked(o, k), written);
    flush(page);
}
