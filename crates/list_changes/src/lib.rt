// What a record changed: registers, volatile state, memory and area, each with what was there before.
#![tactic(auto)]

use list_rows::Cells;
use record::{Device, Registers, Volatile, mode_wires};
use std::fmt;
use std::fmt::{Display, Write};
use text::Page;

// The most changed bytes that have a line each.
const LINES: u64 = 8;

// The most changed bytes that are counted, more than a chip on a tape has.
const COUNTED: u64 = 1000000;

// A line on what changed. A name has twenty columns.
fn put_line<T: Copy + Display>(page: &mut Page, name: &str, old: T, new: T) {
    writeln!(page, "  changed   {name:20}{old} -> {new}");
}

// The same, where it did.
fn put_change<T: Copy + PartialEq + Display>(page: &mut Page, name: &str, old: T, new: T) {
    if old != new {
        put_line(page, name, old, new);
    }
}

// A register.
fn put_register(page: &mut Page, name: &str, old: u8, new: u8) {
    put_change(page, name, Cells(&[old]), Cells(&[new]));
}

fn put_registers(page: &mut Page, old: Registers, new: Registers) {
    put_register(page, "status", old.status, new.status);
    put_register(page, "area protection", old.protection, new.protection);
    put_register(page, "configuration 1", old.cr1, new.cr1);
    put_register(page, "configuration 2", old.cr2, new.cr2);
    put_register(page, "configuration 3", old.cr3, new.cr3);
    put_register(page, "configuration 4", old.cr4, new.cr4);
    put_register(page, "mode register MR0", old.mr0, new.mr0);
}

// A flag that went up or down, with what each is called.
fn put_flag(page: &mut Page, name: &str, down: &str, up: &str, old: bool, new: bool) {
    let word = |flag: bool| if flag { up } else { down };
    put_change(page, name, word(old), word(new));
}

fn put_volatile(page: &mut Page, old: Volatile, new: Volatile) {
    if old.mode != new.mode {
        put_line(page, "bus mode", mode_wires(old.mode), mode_wires(new.mode));
    }
    put_flag(page, "write latch", "down", "up", old.latch, new.latch);
    put_flag(page, "arming", "disarmed", "armed", old.armed, new.armed);
    put_flag(page, "sleep", "awake", "asleep", old.asleep, new.asleep);
    put_flag(page, "toggle", "off", "on", old.toggle, new.toggle);
}

// All of the record that changed.
pub fn put_device(page: &mut Page, old: Device, new: Device) {
    put_registers(page, old.registers, new.registers);
    put_volatile(page, old.volatile, new.volatile);
    put_change(
        page,
        "serial number",
        Cells(&old.identity.serial),
        Cells(&new.identity.serial),
    );
}

// The next number, up to the most that are counted.
pub fn following(count: u64) -> u64 {
    if count < COUNTED { count + 1 } else { count }
}

// The bytes that changed. A name has seven columns. The first eight have a line each, the others are counted: their number and the last of
// them are kept while the lines are put, and a second pass over the bytes for them is no plainer.
pub fn put_places(page: &mut Page, name: &str, old: &[u8], new: &[u8]) {
    let mut count = 0;
    let mut last = 0;
    for (i, (x, y)) in old.iter().zip(new).enumerate() {
        if x == y {
            continue;
        }
        if count < LINES {
            writeln!(page, "  changed   {name:7}{i:06X}       {x:02X} -> {y:02X}");
        }
        count = following(count);
        last = i;
    }
    if LINES < count {
        writeln!(
            page,
            "  changed   {name:7}and {} more up to {last:06X}",
            count - LINES
        );
    }
}
