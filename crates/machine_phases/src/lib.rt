// A transaction, clock by clock: one small function for each phase but the data, over a progress by value.
//
// The counts are below 65,535 before a clock is taken, as no transaction has more clocks than that. `Progress` has no invariant that
// says so, since the definitions, here and in the crates that run these steps, speak of any progress; so the contracts ask for it.
#![tactic(auto)]

ghost use Rattle.std.specs.Prelude.{◌≡◌, ◌<◌, ◌≤◌};
ghost use Rattle.counts.specs.Counts.{total, tick};
ghost use Rattle.progress.specs.Progress.{counting};
ghost use Rattle.machine_phases.specs.Machine.{terms_of, full_at, to_data, to_wait, to_address, command_step, address_step, wait_step, rest_step};

use commands::plans::Body;
use kinds::Kind;
use opcodes::kind_of;
use progress::{Phase, Progress, Tally};
use record::{Device, Setting};
use units::{Clocks, Wires};

// What a transaction runs under: the setting, and the latch, which may hold its storing back.
#[derive(Clone, Copy)]
pub struct Terms {
    pub setting: Setting,
    pub latch: bool,
}

pub fn terms_of(d: Device) -> Terms
    ensures { result ≡ terms_of d }
{
    Terms {
        setting: d.setting(),
        latch: d.volatile.latch,
    }
}

// Whether the data is full after `t` clocks.
pub fn is_full(b: Body, w: Wires, t: Clocks) -> bool
    ensures { result ≡ full_at b w t }
{
    match b {
        Body::Nothing => true,
        Body::FixedRead(m) | Body::FixedWrite(m) => m <= units::clocks_to_bytes(t, w),
        Body::AnyRead | Body::AnyWrite => false,
    }
}

// Past the wait: the data, or the rest where there is none. Here and below setting, kind and address are parameters of their own, as
// the definitions take them and as `plan_in_force` does: an `Aim` would be built in each function to be taken apart in the next.
#[tactic(auto, unfolding(crate::specs::Machine::to_data))]
fn to_data(s: Setting, k: Kind, address: u32, tally: Tally) -> Progress
    requires { s.n ≤ 24 }
    ensures { result ≡ to_data s k address tally }
{
    let body = plan_in_force::body_for(s, k, address);
    if is_full(body, plan_in_force::wires_for(s, k), Clocks::none()) {
        Progress::entered(Phase::Rest, k, address, tally)
    } else {
        Progress::entered(Phase::Data, k, address, tally)
    }
}

// Past the address: the wait, if there is one.
#[tactic(auto, using(units::specs::Compared::le_is), unfolding(crate::specs::Machine::to_wait))]
fn to_wait(s: Setting, k: Kind, address: u32, tally: Tally) -> Progress
    requires { s.n ≤ 24 }
    ensures { result ≡ to_wait s k address tally }
{
    if plan_in_force::wait_clocks(s, k, address) <= Clocks::none() {
        to_data(s, k, address, tally)
    } else {
        Progress::entered(Phase::Wait, k, address, tally)
    }
}

// Past the command: the address, if there is one.
#[tactic(auto, using(units::specs::Compared::le_is), unfolding(crate::specs::Machine::to_address))]
fn to_address(s: Setting, k: Kind, tally: Tally) -> Progress
    requires { s.n ≤ 24 }
    ensures { result ≡ to_address s k tally }
{
    if plan_in_force::address_clocks(s, k) <= Clocks::none() {
        to_wait(s, k, 0, tally)
    } else {
        Progress::entered(Phase::Address, k, 0, tally)
    }
}

// The tally with one clock more of a phase.
fn ticked(p: Progress, phase: Phase) -> Tally
    requires { (total p.tally.counts).0 < 65535 }
    ensures { result ≡ counting (tick phase p.tally.counts) p.tally }
{
    p.tally.counting(p.tally.counts.tick(phase))
}

// A clock of the command. The three steps from here on have a shape in common, and definitions of their own: each gathers on other
// wires or not at all, and asks another length and another next phase, so one function with these as closures would be no plainer.
// An opcode is the low eight bits of what is gathered; no `From` cuts a number.
#[tactic(auto, using(units::specs::Compared::le_is), unfolding(crate::specs::Machine::command_step))]
pub fn command_step(s: Setting, p: Progress, x: u8) -> Progress
    requires { (s.n ≤ 24) × ((total p.tally.counts).0 < 65535) }
    ensures { result ≡ command_step s p x }
{
    let number = wires::shift_in(p.number, x, s.wires);
    let tally = ticked(p, Phase::Command);
    if plan_in_force::command_clocks(s) <= tally.counts.command {
        let k = kind_of(s.part.family(), s.wires, (number % 256) as u8);
        to_address(s, k, tally)
    } else {
        p.onward(number, tally)
    }
}

// A clock of the address.
#[tactic(auto, using(units::specs::Compared::le_is), unfolding(crate::specs::Machine::address_step))]
pub fn address_step(s: Setting, p: Progress, x: u8) -> Progress
    requires { (s.n ≤ 24) × ((total p.tally.counts).0 < 65535) }
    ensures { result ≡ address_step s p x }
{
    let number = wires::shift_in(p.number, x, plan_in_force::wires_for(s, p.kind));
    let tally = ticked(p, Phase::Address);
    if plan_in_force::address_clocks(s, p.kind) <= tally.counts.address {
        to_wait(s, p.kind, number, tally)
    } else {
        p.onward(number, tally)
    }
}

// A clock of the wait.
#[tactic(auto, using(units::specs::Compared::le_is), unfolding(crate::specs::Machine::wait_step))]
pub fn wait_step(s: Setting, p: Progress) -> Progress
    requires { (s.n ≤ 24) × ((total p.tally.counts).0 < 65535) }
    ensures { result ≡ wait_step s p }
{
    let tally = ticked(p, Phase::Wait);
    if plan_in_force::wait_clocks(s, p.kind, p.address) <= tally.counts.wait {
        to_data(s, p.kind, p.address, tally)
    } else {
        p.onward(0, tally)
    }
}

// A clock past all that the command has.
pub fn rest_step(p: Progress) -> Progress
    requires { (total p.tally.counts).0 < 65535 }
    ensures { result ≡ rest_step p }
{
    p.onward(0, ticked(p, Phase::Rest))
}
