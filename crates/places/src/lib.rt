// Where a burst goes: which addresses are allowed, where each byte of a burst lies, and which bytes are
// protected.
//
// A byte takes at least two clocks, so the 65,535 clocks of a transaction carry fewer bytes than that; and
// no memory is larger than an address of 24 bits reaches. The `requires` below ask for both, and the checks
// of sizes have seen to them before anything comes here. `Bytes::stated` takes any number, and the definitions speak of any, so the
// number of a byte has no type of its own that bounds it.
#![tactic(auto)]

ghost use Rattle.std.specs.Prelude.{◌≡◌, ◌+◌, ◌<◌, ◌≤◌};
ghost use Rattle.places.specs.Addresses.{memory_size, memory_allowed, allowed_of};
ghost use Rattle.places.specs.Places.{group_in_force, wrap_in_force, read_span, write_span, place_in, read_place, write_place, area_place};
ghost use Rattle.places.specs.Laws.{Placeable};
ghost use Rattle.places.specs.Protection.{shut_memory, section_shut, protected_of, area_protected_of};

use commands::plans::Address;
use commands::registers::register_at;
use parts::{Family, Part};
use record::Setting;
use units::Bytes;

// The group that the PSRAM's toggle picks, in bytes.
const TOGGLED: usize = 32;

// The equal shares of a memory, of which the status register protects some.
const SHARES: usize = 64;

// The sections of an area, of which each has a bit.
const SECTIONS: usize = 8;

// The bytes of a memory.
pub fn memory_size(n: u8) -> Bytes
    requires { n ≤ 24 }
    ensures { result ≡ memory_size n }
{
    Bytes::stated(1usize << n)
}

// Whether a memory has this address, or drops the bits that it has too many.
fn memory_allowed(family: Family, n: u8, address: u32) -> bool
    requires { n ≤ 24 }
    ensures { result ≡ memory_allowed family n address }
{
    match family {
        Family::Mram => (address as usize) < memory_size(n).in_bytes(),
        Family::Psram => true,
    }
}

// Whether a command may have this address.
pub fn allowed(s: Setting, a: Address, address: u32) -> bool
    requires { s.n ≤ 24 }
    ensures { result ≡ allowed_of s a address }
{
    match a {
        Address::Absent | Address::Ignored => true,
        Address::InMemory => memory_allowed(s.part.family(), s.n, address),
        Address::InArea => (address as usize) < s.part.area().in_bytes(),
        Address::InMap => register_at(s.part, address).is_some(),
        Address::LowNibbleZero => address % 16 == 0,
    }
}

// The PSRAM's group in force.
fn group_in_force(mr0: u8, toggle: bool) -> Bytes
    ensures { result ≡ group_in_force mr0 toggle }
{
    if toggle {
        Bytes::stated(TOGGLED)
    } else {
        parts::group_length(mr0)
    }
}

// The group of the MRAM's memory reads.
fn wrap_in_force(n: u8, cr3: u8) -> Bytes
    requires { n ≤ 24 }
    ensures { result ≡ wrap_in_force n cr3 }
{
    if cr3 / 16 % 2 == 1 {
        parts::wrap_length(cr3)
    } else {
        memory_size(n)
    }
}

// The group inside which memory reads come round, and below that of writes. Reads and writes have definitions of their own, which
// theorems speak of, `read_span` and `write_span`, `read_place` and `write_place`: one function with the direction beside the rest
// would have a contract for each, so it would be no plainer.
#[tactic(auto, unfolding(crate::specs::Places::read_span))]
fn read_span(s: Setting) -> Bytes
    requires { s.n ≤ 24 }
    ensures { result ≡ read_span s }
{
    match s.part.family() {
        Family::Mram => wrap_in_force(s.n, s.registers.cr3),
        Family::Psram => group_in_force(s.registers.mr0, s.toggle),
    }
}

// The group inside which memory writes come round.
#[tactic(auto, unfolding(crate::specs::Places::write_span))]
fn write_span(s: Setting) -> Bytes
    requires { s.n ≤ 24 }
    ensures { result ≡ write_span s }
{
    match s.part.family() {
        Family::Mram => memory_size(s.n),
        Family::Psram => group_in_force(s.registers.mr0, s.toggle),
    }
}

// Where byte `i` of a burst lies, in a store of `size` bytes and groups of `span`.
#[tactic(auto, unfolding(crate::specs::Places::place_in))]
fn place_in(size: Bytes, span: Bytes, address: u32, i: Bytes) -> usize
    requires { Placeable size span i }
    ensures { result ≡ place_in size span address i }
{
    let store = size.in_bytes();
    let group = span.in_bytes();
    let past = i.in_bytes();
    let a = (address as usize) % store;
    a / group * group + (a + past) % group
}

// Where byte `i` of a memory read lies.
pub fn read_place(s: Setting, address: u32, i: Bytes) -> usize
    requires { (s.n ≤ 24) × (i.0 ≤ 65535) }
    ensures { result ≡ read_place s address i }
{
    place_in(memory_size(s.n), read_span(s), address, i)
}

// Where byte `i` of a memory write lies.
pub fn write_place(s: Setting, address: u32, i: Bytes) -> usize
    requires { (s.n ≤ 24) × (i.0 ≤ 65535) }
    ensures { result ≡ write_place s address i }
{
    place_in(memory_size(s.n), write_span(s), address, i)
}

// Where byte `i` of a read or write of the area lies.
pub fn area_place(part: Part, address: u32, i: Bytes) -> usize
    requires { i.0 ≤ 65535 }
    ensures { result ≡ area_place part address i }
{
    match part.family() {
        Family::Mram => {
            let size = part.area();
            place_in(size, size, address, i)
        }
        Family::Psram => 0,
    }
}

// Whether the status register protects this place of a memory.
fn shut_memory(n: u8, status: u8, place: usize) -> bool
    requires { n ≤ 24 }
    ensures { result ≡ shut_memory n status place }
{
    let size = memory_size(n).in_bytes();
    let shut = size / SHARES * parts::share(status);
    if status / 32 % 2 == 1 {
        place < shut
    } else {
        size - shut <= place
    }
}

// Whether a section of the area is protected.
fn section_shut(protection: u8, section: usize) -> bool
    ensures { result ≡ section_shut protection section }
{
    section < SECTIONS && (protection >> section) % 2 == 1
}

// Whether the byte of memory at this place is protected.
#[tactic(auto, unfolding(crate::specs::Protection::protected_of))]
pub fn protected(s: Setting, place: usize) -> bool
    requires { s.n ≤ 24 }
    ensures { result ≡ protected_of s place }
{
    match s.part.family() {
        Family::Mram => shut_memory(s.n, s.registers.status, place),
        Family::Psram => false,
    }
}

// Whether the byte of the area at this place is protected.
#[tactic(auto, unfolding(crate::specs::Protection::area_protected_of))]
pub fn area_protected(s: Setting, place: usize) -> bool
    ensures { result ≡ area_protected_of s place }
{
    match s.part.family() {
        Family::Mram => section_shut(s.registers.protection, place / s.part.section().in_bytes()),
        Family::Psram => false,
    }
}
