// What a transaction leaves of a record: what a command does when it is done, what an answer leaves, and the rules of the
// write latch.
#![tactic(auto)]

ghost use Rattle.std.specs.Prelude.{◌≡◌};
ghost use Rattle.changes.specs.Latches.{kind_needs, latch_needed, latch_missing, after_burst};
ghost use Rattle.changes.specs.Changes.{controlled, written_to, burst_done, register_done, write_done, effect_of, declined_to, settled_of};

use kinds::{Control, Kind, Register, Target};
use parts::Family;
use record::{Answer, Class, Device, class_of, is_protected, without_latch};

// A command without data, done.
fn controlled(d: Device, c: Control) -> Device
    ensures { result ≡ controlled c d }
{
    match c {
        Control::NoOperation => d,
        Control::WriteEnable => d.latched(true),
        Control::WriteDisable => d.latched(false),
        Control::ToOne => d.in_mode(1),
        Control::ToTwo => d.in_mode(2),
        Control::ToFour => d.in_mode(4),
        Control::Sleep => d.asleep(true),
        Control::Wake => d.asleep(false),
        Control::ResetEnable => d.armed(true),
        Control::Reset => d.reset(),
        Control::Toggle => d.toggled(!d.volatile.toggle),
    }
}

// The bytes of `value` put into a register.
fn written(mut d: Device, r: Register, value: [u8; 8]) -> Device
    ensures { result ≡ written_to r value d }
{
    match r {
        Register::Status => d.registers.status = without_latch(value[0]),
        Register::AreaProtection => d.registers.protection = value[0],
        Register::Configurations => {
            d.registers.cr1 = value[0];
            d.registers.cr2 = value[1];
            d.registers.cr3 = value[2];
            d.registers.cr4 = value[3];
        }
        Register::Serial => d.identity.serial = value,
        Register::ModeRegister => d.registers.mr0 = value[0],
        Register::Configuration1
        | Register::Configuration2
        | Register::Configuration3
        | Register::Configuration4
        | Register::Identity
        | Register::Unique
        | Register::LongIdentity => {}
    }
    d
}

// A burst into memory or area, stored or wholly protected.
fn burst_done(d: Device) -> Device
    ensures { result ≡ burst_done d }
{
    d.latched(after_burst(d.registers.cr4, d.volatile.latch))
}

// A register write of the MRAM, done: the latch goes down in every write mode.
fn register_done(d: Device, r: Register, value: [u8; 8]) -> Device
    ensures { result ≡ register_done r value d }
{
    written(d, r, value).latched(false)
}

// A write to this target, done.
fn write_done(d: Device, to: Target, value: [u8; 8]) -> Device
    ensures { result ≡ write_done to value d }
{
    match to {
        Target::Register(r) => register_done(d, r, value),
        Target::Mode => written(d, Register::ModeRegister, value),
        Target::Memory(_) | Target::Area => burst_done(d),
    }
}

// A command of this kind, done.
fn effect(d: Device, k: Kind, value: [u8; 8]) -> Device
    ensures { result ≡ effect_of k value d }
{
    match k {
        Kind::Unknown | Kind::Read(_) => d,
        Kind::Plain(c) => controlled(d, c),
        Kind::Write(to) => write_done(d, to, value),
    }
}

// The record that a transaction leaves when it is answered so.
pub fn settled(d: Device, k: Kind, value: [u8; 8], answer: Answer) -> Device
    ensures { result ≡ settled_of k value answer d }
{
    let next = d.armed(false);
    match class_of(answer) {
        Class::Done => effect(next, k, value),
        Class::Refused => d,
        Class::Declined => declined(next, answer),
    }
}

// What is declined moves nothing, but 9 moves the latch as the write would have.
fn declined(d: Device, answer: Answer) -> Device
    ensures { result ≡ declined_to answer d }
{
    if is_protected(answer) {
        burst_done(d)
    } else {
        d
    }
}

// Whether a command of this kind needs the latch.
fn latch_needed(family: Family, cr4: u8, k: Kind) -> bool
    ensures { result ≡ latch_needed family cr4 k }
{
    match family {
        Family::Mram => kind_needs(cr4, k),
        Family::Psram => false,
    }
}

// Whether it needs the latch and the latch is down. Family, register and latch are parameters, as `latch_missing` of the definitions
// takes them: one caller has them of a setting and the latch beside it, another of `Terms`.
#[tactic(auto, unfolding(crate::specs::Latches::latch_missing))]
pub fn latch_missing(family: Family, cr4: u8, latch: bool, k: Kind) -> bool
    ensures { result ≡ latch_missing family cr4 latch k }
{
    latch_needed(family, cr4, k) && !latch
}

fn kind_needs(cr4: u8, k: Kind) -> bool
    ensures { result ≡ kind_needs cr4 k }
{
    match k {
        Kind::Write(Target::Register(_)) => true,
        Kind::Write(Target::Memory(_) | Target::Area) => cr4 % 4 != 1,
        _ => false,
    }
}

// The latch after a burst into memory or area, stored or wholly protected.
fn after_burst(cr4: u8, latch: bool) -> bool
    ensures { result ≡ after_burst cr4 latch }
{
    cr4 % 4 != 0 && latch
}
