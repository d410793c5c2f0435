// What the clocks of a transaction say, read again from its samples for the page.
#![tactic(auto)]

use counts::Counts;
use kinds::Kind;
use record::{Device, Setting};
use text::Page;
use units::{Clocks, Wires};

// The chip before the transaction; the opcode, where all command bits came, and the command that it is; the wires of
// all that follows the command; and the address, where all its bits came.
#[derive(Clone, Copy)]
pub struct View {
    pub setting: Setting,
    pub opcode: Option<u8>,
    pub kind: Kind,
    pub later: Wires,
    pub address: Option<u32>,
}

// The samples of a transaction, or its output, by phase.
#[derive(Clone, Copy)]
pub struct Phases<'a> {
    pub command: &'a [u8],
    pub address: &'a [u8],
    pub wait: &'a [u8],
    pub body: &'a [u8],
}

// So many clocks from the front, or all where there are no more, and those after them.
fn cut(clocks: &[u8], c: Clocks) -> (&[u8], &[u8]) {
    clocks.split_at(c.in_clocks().min(clocks.len()))
}

// The phases, by the clocks that each has.
pub fn phases_of(c: Counts, clocks: &[u8]) -> Phases<'_> {
    let (command, rest) = cut(clocks, c.command);
    let (address, rest) = cut(rest, c.address);
    let (wait, rest) = cut(rest, c.wait);
    let (body, _) = cut(rest, c.body);
    Phases {
        command,
        address,
        wait,
        body,
    }
}

// The number that clocks carry. `bits` says what bits a clock has: those of a sample stand elsewhere than those of a driven one. (The
// device gathers samples alone, from a number on, by the clause of `machine_chunks::gathered`.)
fn number_in<F: Fn(u8) -> u8>(clocks: &[u8], w: Wires, bits: &F) -> u32
    requires { F.IsAlwaysCallable bits.now }
{
    clocks
        .iter()
        .fold(0, |number, x| wires::shift_in(number, bits(*x), w))
}

// The byte that the last clocks of them carry.
fn byte_in<F: Fn(u8) -> u8>(clocks: &[u8], w: Wires, bits: &F) -> u8
    requires { F.IsAlwaysCallable bits.now }
{
    (number_in(clocks, w, bits) % 256) as u8
}

// The opcode, where all command bits came.
fn opcode_in(s: Setting, c: Counts, samples: &[u8]) -> Option<u8> {
    if c.command < plan_in_force::command_clocks(s) {
        None
    } else {
        Some(byte_in(samples, s.wires, &|x| x))
    }
}

// Whether the command has an address. Setting and kind travel apart, here and below, as the functions of plan_in_force take
// them; a `View` is made of them only afterwards.
pub fn is_addressed(s: Setting, k: Kind) -> bool {
    Clocks::none() < plan_in_force::address_clocks(s, k)
}

// The address, where the command has one and all its bits came.
fn address_in(s: Setting, k: Kind, c: Counts, samples: &[u8]) -> Option<u32> {
    if !is_addressed(s, k) || c.address < plan_in_force::address_clocks(s, k) {
        None
    } else {
        Some(number_in(samples, plan_in_force::wires_for(s, k), &|x| x))
    }
}

// All of it, for a transaction that found the chip so.
pub fn view_of(d: Device, c: Counts, samples: &[u8]) -> View {
    let setting = d.setting();
    let phases = phases_of(c, samples);
    let opcode = opcode_in(setting, c, phases.command);
    let kind = opcode.map_or(Kind::Unknown, |opcode| {
        opcodes::kind_of(setting.part.family(), setting.wires, opcode)
    });
    View {
        setting,
        opcode,
        kind,
        later: plan_in_force::wires_for(setting, kind),
        address: address_in(setting, kind, c, phases.address),
    }
}

// The whole bytes that clocks carry, put on a page. `bits` says what bits a clock has.
pub fn gather<F: Fn(u8) -> u8>(page: &mut Page, clocks: &[u8], w: Wires, bits: F)
    requires { F.IsAlwaysCallable bits }
{
    for byte in clocks.chunks_exact(units::byte_clocks(w).in_clocks()) {
        page.put(byte_in(byte, w, &bits));
    }
}
