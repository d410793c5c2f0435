// The data phase, and a transaction fed clock by clock: what each clock drives, and what it leaves.
#![tactic(auto)]

ghost use Rattle.std.specs.Prelude.{◌≡◌, cond, ◌<◌, ◌≤◌, set};
ghost use Rattle.counts.specs.Counts.{total};
ghost use Rattle.paper.specs.InForce.{wires_for};
ghost use Rattle.paper.specs.Storing.{stored};
ghost use Rattle.contract_words.specs.Words.{lends, taken_as, held_as, run_as};
ghost use Rattle.machine_phases.specs.Machine.{byte_in, last_at, held, data_held, data_step, step_of, drive_of};

use changes::latch_missing;
use commands::plans::{Body, is_write};
use machine_bytes::{driven_at, protected_at, put, put_at};
use machine_phases::Terms;
use progress::{Phase, Progress, Tally};
use record::{Aim, Device};
use units::{Bytes, Clocks, Wires};

// In the middle of a byte: the number gathered of it, and the bytes of a register write so far.
#[derive(Clone, Copy)]
pub struct Holding {
    pub number: u32,
    pub value: [u8; 8],
}

// Byte `i` of eight places.
fn with_byte(mut value: [u8; 8], i: Bytes, b: u8) -> [u8; 8]
    ensures { result ≡ set value i.0 b }
{
    put(&mut value, i.in_bytes(), b);
    value
}

// A whole byte of a burst: held back, skipped where it is protected, or stored. `hold` stands beside the aim and not in it, here and in
// the two functions below, since `byte_in` takes it apart, and an `Aim` serves those too who know no latch.
fn store_byte(hold: bool, a: Aim, i: Bytes, b: u8, memory: &mut [u8], area: &mut [u8])
    requires { (a.setting.n ≤ 24) × (i.0 ≤ 65535) }
    ensures { lends memory.new area.new ≡ cond hold (lends memory.old area.old) (stored a i b (lends memory.old area.old)) }
{
    if !hold && !protected_at(a, i) {
        put_at(a, i, b, memory, area);
    }
}

// A whole data byte, by what the data of the command is.
fn take_byte(
    hold: bool,
    a: Aim,
    i: Bytes,
    b: u8,
    value: [u8; 8],
    memory: &mut [u8],
    area: &mut [u8],
) -> [u8; 8]
    requires { (a.setting.n ≤ 24) × (i.0 ≤ 65535) }
    ensures { taken_as result memory.new area.new ≡ byte_in hold a i b (taken_as value memory.old area.old) }
{
    match plan_in_force::body_for(a.setting, a.kind, a.address) {
        Body::FixedWrite(_) => with_byte(value, i, b),
        Body::AnyWrite => {
            store_byte(hold, a, i, b, memory, area);
            value
        }
        Body::Nothing | Body::FixedRead(_) | Body::AnyRead => value,
    }
}

// Whether clock `t` of the data is the last of a byte: none is left over after it.
fn is_last(t: Clocks, w: Wires) -> bool
    requires { t.0 ≤ 65535 }
    ensures { result ≡ last_at w t }
{
    units::unfinished(t.next(), w) == Clocks::none()
}

// Data clock `t` of a write: the bits are gathered, and with a byte's last clock the byte is taken: the low eight bits of what is
// gathered, which no `From` cuts off.
#[tactic(auto, unfolding(machine_phases::specs::Machine::held))]
fn hold_clock(
    hold: bool,
    a: Aim,
    t: Clocks,
    h: Holding,
    x: u8,
    memory: &mut [u8],
    area: &mut [u8],
) -> Holding
    requires { (a.setting.n ≤ 24) × (t.0 ≤ 65535) }
    ensures { held_as result.number result.value memory.new area.new ≡ held (wires_for a.setting a.kind) (byte_in hold a) t (held_as h.number h.value memory.old area.old) x }
{
    let w = plan_in_force::wires_for(a.setting, a.kind);
    let number = wires::shift_in(h.number, x, w);
    if is_last(t, w) {
        let i = units::clocks_to_bytes(t, w);
        Holding {
            number: 0,
            value: take_byte(hold, a, i, (number % 256) as u8, h.value, memory, area),
        }
    } else {
        Holding { number, ..h }
    }
}

// What a data clock leaves of the data: a write gathers its bytes, a read gathers nothing.
#[tactic(auto, unfolding(machine_phases::specs::Machine::data_held))]
fn hold_data(h: Terms, p: Progress, x: u8, memory: &mut [u8], area: &mut [u8]) -> Holding
    requires { (h.setting.n ≤ 24) × ((total p.tally.counts).0 < 65535) }
    ensures { held_as result.number result.value memory.new area.new ≡ data_held h (run_as p memory.old area.old) x }
{
    let s = h.setting;
    let value = p.tally.value; // an array goes into a struct by a variable alone
    let start = Holding {
        number: p.number,
        value,
    };
    let body = plan_in_force::body_for(s, p.kind, p.address);
    if !is_write(body) {
        return start;
    }
    let hold = latch_missing(s.part.family(), s.registers.cr4, h.latch, p.kind);
    let a = Aim {
        setting: s,
        kind: p.kind,
        address: p.address,
    };
    hold_clock(hold, a, p.tally.counts.body, start, x, memory, area)
}

// A clock of the data.
#[tactic(auto, unfolding(machine_phases::specs::Machine::data_step))]
fn data_step(h: Terms, p: Progress, x: u8, memory: &mut [u8], area: &mut [u8]) -> Progress
    requires { (h.setting.n ≤ 24) × ((total p.tally.counts).0 < 65535) }
    ensures { run_as result memory.new area.new ≡ data_step h (run_as p memory.old area.old) x }
{
    let g = hold_data(h, p, x, memory, area);
    let counts = p.tally.counts.tick(Phase::Data);
    let value = g.value; // by a variable, as above
    let next = Tally { counts, value };
    let body = plan_in_force::body_for(h.setting, p.kind, p.address);
    let w = plan_in_force::wires_for(h.setting, p.kind);
    if machine_phases::is_full(body, w, counts.body) {
        Progress::entered(Phase::Rest, p.kind, p.address, next)
    } else {
        p.onward(g.number, next)
    }
}

// One clock, whatever its phase. A match on the phase and no closure that is handed on: the phase is kept in the progress, and the steps
// take different arguments (`step_of` goes by it too).
#[tactic(auto, unfolding(machine_phases::specs::Machine::step_of))]
pub fn step(h: Terms, p: Progress, x: u8, memory: &mut [u8], area: &mut [u8]) -> Progress
    requires { (h.setting.n ≤ 24) × ((total p.tally.counts).0 < 65535) }
    ensures { run_as result memory.new area.new ≡ step_of h (run_as p memory.old area.old) x }
{
    match p.phase {
        Phase::Command => machine_phases::command_step(h.setting, p, x),
        Phase::Address => machine_phases::address_step(h.setting, p, x),
        Phase::Wait => machine_phases::wait_step(h.setting, p),
        Phase::Data => data_step(h, p, x, memory, area),
        Phase::Rest => machine_phases::rest_step(p),
    }
}

// What the device drives in this clock.
#[tactic(auto, unfolding(machine_phases::specs::Machine::drive_of))]
pub fn drive(d: Device, p: Progress, memory: &[u8], area: &[u8]) -> u8
    requires { (d.make.n ≤ 24) × ((total p.tally.counts).0 < 65535) }
    ensures { result ≡ drive_of d (run_as p memory.now area.now) }
{
    if p.phase != Phase::Data {
        return 0;
    }
    let body = plan_in_force::body_for(d.setting(), p.kind, p.address);
    driven_at(
        body,
        d,
        p.kind,
        p.address,
        memory,
        area,
        p.tally.counts.body,
    )
}
