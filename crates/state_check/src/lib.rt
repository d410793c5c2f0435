// Which values a register may have, and whether the fields of a record are in their ranges.
//
// The rule of a register's values is stated once: a write of another value is answered 10, a record that
// holds one is answered 3.
#![tactic(auto)]

ghost use Rattle.std.specs.Prelude.{◌≡◌, drop};
ghost use Rattle.state_check.specs.Values.{status_allowed, cr3_allowed, cr4_allowed, configurations_allowed, mode_register_allowed, reserved_of};
ghost use Rattle.state_check.specs.States.{mode_allowed, zeros, mram_registers, psram_registers, mram_volatile, psram_volatile, mram_identity, psram_identity, mram_valid, psram_valid, in_range};

use kinds::Register;
use parts::{Family, Part};
use record::{Device, Identities, Registers, Volatile};

// Status: bits 7, 6 and 0.
#[tactic(auto, unfolding(crate::specs::Values::status_allowed))]
fn status_allowed(v: u8) -> bool
    ensures { result ≡ status_allowed v }
{
    v < 64 && v % 2 == 0
}

// Configuration 3: bit 3, and the codes that name no group.
#[tactic(auto, unfolding(crate::specs::Values::cr3_allowed))]
fn cr3_allowed(part: Part, v: u8) -> bool
    ensures { result ≡ cr3_allowed part v }
{
    v / 8 % 2 == 0 && v % 8 < part.wrap_codes()
}

// Configuration 4: bits 7 to 3, bit 2, and write mode 3.
#[tactic(auto, unfolding(crate::specs::Values::cr4_allowed))]
fn cr4_allowed(v: u8) -> bool
    ensures { result ≡ cr4_allowed v }
{
    v / 4 == 1 && v % 4 < 3
}

// All four configurations.
#[tactic(auto, unfolding(crate::specs::Values::configurations_allowed))]
fn configurations_allowed(part: Part, cr1: u8, cr2: u8, cr3: u8, cr4: u8) -> bool
    ensures { result ≡ configurations_allowed part cr1 cr2 cr3 cr4 }
{
    cr1 == 0 && cr2 < 16 && cr3_allowed(part, cr3) && cr4_allowed(cr4)
}

// The PSRAM's mode register: bit 7, bits 4 to 2, and code 3 of the drive strength.
#[tactic(auto, unfolding(crate::specs::Values::mode_register_allowed))]
fn mode_register_allowed(v: u8) -> bool
    ensures { result ≡ mode_register_allowed v }
{
    v < 128 && v / 4 % 8 == 0 && v % 4 < 3
}

// Whether a register must not be written with these bytes.
pub fn reserved(part: Part, r: Register, value: [u8; 8]) -> bool
    ensures { result ≡ reserved_of part r value }
{
    match r {
        Register::Status => !status_allowed(value[0]),
        Register::Configurations => {
            !configurations_allowed(part, value[0], value[1], value[2], value[3])
        }
        Register::ModeRegister => !mode_register_allowed(value[0]),
        _ => false,
    }
}

// Whether all of the eight bytes from `from` on are 0.
pub fn all_zero(a: [u8; 8], from: usize) -> bool
    ensures { result ≡ zeros (drop from a) }
{
    are_zero(&a[from.min(8)..])
}

// Whether all of these bytes are 0.
pub fn are_zero(bytes: &[u8]) -> bool
    ensures { result ≡ zeros bytes.now }
{
    bytes.iter().all(|b| *b == 0)
}

// The bus modes of each family: the check that tells which numbers are modes.
#[tactic(auto, unfolding(crate::specs::States::mode_allowed))]
pub fn mode_allowed(family: Family, mode: u8) -> bool
    ensures { result ≡ mode_allowed family mode }
{
    match family {
        Family::Mram => matches!(mode, 1 | 2 | 4),
        Family::Psram => matches!(mode, 1 | 4),
    }
}

#[tactic(auto, unfolding(crate::specs::States::mram_registers))]
fn mram_registers(part: Part, r: Registers) -> bool
    ensures { result ≡ mram_registers part r }
{
    status_allowed(r.status)
        && r.status / 2 % 2 == 0
        && configurations_allowed(part, r.cr1, r.cr2, r.cr3, r.cr4)
        && r.mr0 == 0
}

#[tactic(auto, unfolding(crate::specs::States::psram_registers, crate::specs::States::zeros))]
fn psram_registers(r: Registers) -> bool
    ensures { result ≡ psram_registers r }
{
    let others = [r.status, r.protection, r.cr1, r.cr2, r.cr3, r.cr4, 0, 0];
    all_zero(others, 0) && mode_register_allowed(r.mr0)
}

#[tactic(auto, unfolding(crate::specs::States::mram_volatile))]
fn mram_volatile(v: Volatile) -> bool
    ensures { result ≡ mram_volatile v }
{
    !v.toggle && mode_allowed(Family::Mram, v.mode)
}

#[tactic(auto, unfolding(crate::specs::States::psram_volatile))]
fn psram_volatile(v: Volatile) -> bool
    ensures { result ≡ psram_volatile v }
{
    !v.latch && !v.asleep && mode_allowed(Family::Psram, v.mode)
}

#[tactic(auto, unfolding(crate::specs::States::mram_identity))]
fn mram_identity(i: Identities) -> bool
    ensures { result ≡ mram_identity i }
{
    all_zero(i.device, 4)
}

#[tactic(auto, unfolding(crate::specs::States::psram_identity))]
fn psram_identity(i: Identities) -> bool
    ensures { result ≡ psram_identity i }
{
    all_zero(i.unique, 0) && all_zero(i.serial, 0)
}

fn mram_valid(part: Part, d: Device) -> bool
    ensures { result ≡ mram_valid part d }
{
    mram_registers(part, d.registers) && mram_volatile(d.volatile) && mram_identity(d.identity)
}

fn psram_valid(d: Device) -> bool
    ensures { result ≡ psram_valid d }
{
    psram_registers(d.registers) && psram_volatile(d.volatile) && psram_identity(d.identity)
}

// Whether every field of the record, but the open transaction, is in the range that its family and part give it.
#[tactic(auto, unfolding(crate::specs::States::in_range))]
pub fn in_range(d: Device) -> bool
    ensures { result ≡ in_range d }
{
    let part = Part::of(d.make.part);
    match part.family() {
        Family::Mram => mram_valid(part, d),
        Family::Psram => psram_valid(d),
    }
}
