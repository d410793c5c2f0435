// What one clock carries, in and out, on one, two or four wires.
#![tactic(auto)]

ghost use Rattle.std.specs.Prelude.{◌≡◌, ◌+◌, ◌*◌, ◌/◌, ◌^◌};
ghost use Rattle.units.specs.Units.{wires_of, bits_in};
ghost use Rattle.wires.specs.Bits.{bits_of, shift_of, fits_in, group_of};
ghost use Rattle.wires.specs.Levels.{level_of, seen_of, driven_of};

use units::{Clocks, Wires};

// The register that gathers an address or a byte is 24 bits wide: how many numbers it holds.
const REGISTER: u64 = 16777216;

// The bits of a number. Every clock carries one at least.
const NUMBER: usize = 32;

// How many values the bits of one clock have.
pub fn values(w: Wires) -> u8
    ensures { result ≡ 2 ^ wires_of w }
{
    match w {
        Wires::One => 2,
        Wires::Two => 4,
        Wires::Four => 16,
    }
}

// A number with the bits of one more sample below it, and nothing cut off. The sample's other wires are ignored. This is
// done in every clock that brings bits, so each number of wires has its shift and its remainder as constants (P2).
fn with_bits(number: u32, x: u8, w: Wires) -> u64
    ensures { result ≡ number * 2 ^ wires_of w + bits_of w x }
{
    let n = u64::from(number);
    let b = u64::from(x);
    match w {
        Wires::One => (n << 1) + b % 2,
        Wires::Two => (n << 2) + b % 4,
        Wires::Four => (n << 4) + b % 16,
    }
}

// The number gathered so far, with the bits of one more sample below it.
#[tactic(auto, unfolding(crate::specs::Bits::shift_of))]
pub fn shift_in(number: u32, x: u8, w: Wires) -> u32
    ensures { result ≡ shift_of w number x }
{
    (with_bits(number, x, w) % REGISTER) as u32
}

// The bits of a number above those that so many clocks bring. Past its last there are none.
pub fn shifted(v: u32, c: Clocks, w: Wires) -> u32
    ensures { result ≡ v / 2 ^ bits_in w c }
{
    if Clocks::stated(NUMBER) <= c {
        return 0;
    }
    let bits = units::bits_in(c, w);
    if NUMBER <= bits { 0 } else { v >> bits }
}

// Whether a number has no more bits than so many clocks bring.
pub fn fits(v: u32, c: Clocks, w: Wires) -> bool
    ensures { result ≡ fits_in w c v }
{
    shifted(v, c, w) == 0
}

// The bits of the byte `b` that travel in clock `k` of it, counted from 0.
#[tactic(auto, unfolding(crate::specs::Bits::group_of))]
pub fn group(b: u8, k: Clocks, w: Wires) -> u8
    ensures { result ≡ group_of w k b }
{
    let below = units::bits_in(units::coming(k, w), w);
    (b >> below) % values(w)
}

// The output byte of a clock in which the device drives these bits.
pub fn level(v: u8, w: Wires) -> u8
    ensures { result ≡ level_of w v }
{
    match w {
        Wires::One => 0x20 + 2 * (v % 2),
        Wires::Two => 0x30 + v % 4,
        Wires::Four => 0xF0 + v % 16,
    }
}

// The bits that an output byte shows.
pub fn seen(x: u8, w: Wires) -> u8
    ensures { result ≡ seen_of w x }
{
    match w {
        Wires::One => x / 2 % 2,
        Wires::Two => x % 4,
        Wires::Four => x % 16,
    }
}

// Whether the device ever drives this output byte on these wires.
pub fn is_driven(x: u8, w: Wires) -> bool
    ensures { result ≡ driven_of w x }
{
    x == level(seen(x, w), w)
}
