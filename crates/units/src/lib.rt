// Clocks and bytes, the two quantities of the bench, and the only ways from one to the other.
//
// A clock carries as many bits as there are wires in use, so a byte takes eight, four or two clocks.
// Whoever has clocks and wants bytes, or the other way round, names the wires: the conversions below
// are the only places where a number changes its unit.
//
// The numbers inside are private. A quantity comes from a slice, by its length, or from a number that a table,
// a register or a caller states in that unit; it goes out as an index or a length; and each of these doors has
// the unit in its name. All else, sums and comparisons, is done here, with both sides in one unit (D64).
#![tactic(auto)]

ghost use Rattle.std.specs.Prelude.{◌≡◌, ◌+◌, ◌≤◌, ◌<◌, length};
ghost use Rattle.units.specs.Units.{clocks, bytes, next, next_byte, plus, less, up_to, longest, wires_of, per_byte, clocks_of, clocks_within, whole_of, unfinished_of, byte_clocks, coming_of, bits_in};

use std::fmt;
use std::ops::{Add, Sub};

// A number of clocks (D18). Clocks and bytes are two tuple structs, as document 01 asks, so that one never stands where the other
// is due; what both have is written for each.
#[derive(Clone, Copy, PartialEq, Eq, PartialOrd, Ord)]
pub struct Clocks(usize);

// A number of bytes (D18).
#[derive(Clone, Copy, PartialEq, Eq, PartialOrd, Ord)]
pub struct Bytes(usize);

// The wires that carry data in a phase.
#[derive(Clone, Copy, PartialEq, Eq)]
pub enum Wires {
    One,
    Two,
    Four,
}

impl fmt::Display for Wires {
    fn fmt<W: fmt::Write>(&self, f: &mut fmt::Formatter<W>) -> fmt::Result {
        f.write_str(match self {
            Wires::One => "one wire",
            Wires::Two => "two wires",
            Wires::Four => "four wires",
        })
    }
}

impl Clocks {
    pub fn none() -> Clocks
        ensures { result ≡ clocks 0 }
    {
        Clocks(0)
    }

    // The most clocks that a transaction has.
    pub fn longest() -> Clocks
        ensures { result ≡ longest }
    {
        Clocks(65535)
    }

    // As many as there are samples: one sample is taken or given in each clock.
    pub fn of_samples(samples: &[u8]) -> Clocks
        ensures { result ≡ clocks (length samples.now) }
    {
        Clocks(samples.len())
    }

    // A number that is stated in clocks, by a table, a register or a caller.
    pub fn stated(n: usize) -> Clocks
        ensures { result ≡ clocks n }
    {
        Clocks(n)
    }

    // The number of clocks, as an index of samples or a length of them.
    pub fn in_clocks(self) -> usize
        ensures { result ≡ self.0 }
    {
        self.0
    }

    // One clock more.
    pub fn next(self) -> Clocks
        requires { self.0 < 4294967295 }
        ensures { result ≡ next self }
    {
        Clocks(self.0 + 1)
    }

    // The clocks past the first so many; none where there are no more than these.
    pub fn past(self, some: Clocks) -> Clocks
        ensures { result ≡ less self some }
    {
        Clocks(self.0.saturating_sub(some.0))
    }

    // These clocks, but no more than so many.
    pub fn up_to(self, most: Clocks) -> Clocks
        ensures { result ≡ up_to most self }
    {
        self.min(most)
    }
}

impl Add for Clocks {
    type Output = Clocks;

    ghost can_add = { λ c d. c.0 + d.0 ≤ 4294967295 };

    ghost add_gives = { λ c d r. r ≡ plus c d };

    fn add(self, more: Clocks) -> Clocks {
        Clocks(self.0 + more.0)
    }
}

// What is left of clocks when some of them are taken off. It asks that there are so many; `past` gives the same and asks nothing.
impl Sub for Clocks {
    type Output = Clocks;

    ghost can_sub = { λ c d. d.0 ≤ c.0 };

    ghost sub_gives = { λ c d r. r ≡ less c d };

    fn sub(self, some: Clocks) -> Clocks {
        Clocks(self.0 - some.0)
    }
}

impl Bytes {
    pub fn none() -> Bytes
        ensures { result ≡ bytes 0 }
    {
        Bytes(0)
    }

    pub fn one() -> Bytes
        ensures { result ≡ bytes 1 }
    {
        Bytes(1)
    }

    // As many as the slice has.
    pub fn of_store(store: &[u8]) -> Bytes
        ensures { result ≡ bytes (length store.now) }
    {
        Bytes(store.len())
    }

    // A number that is stated in bytes, by a table, a register or a caller.
    pub fn stated(n: usize) -> Bytes
        ensures { result ≡ bytes n }
    {
        Bytes(n)
    }

    // The number of bytes, as an index of them or a length.
    pub fn in_bytes(self) -> usize
        ensures { result ≡ self.0 }
    {
        self.0
    }

    // One byte more.
    pub fn next(self) -> Bytes
        requires { self.0 < 4294967295 }
        ensures { result ≡ next_byte self }
    {
        Bytes(self.0 + 1)
    }
}

// How many wires they are.
impl From<Wires> for usize {
    ghost from_gives = { λ w n. n ≡ wires_of w };

    fn from(w: Wires) -> usize {
        match w {
            Wires::One => 1,
            Wires::Two => 2,
            Wires::Four => 4,
        }
    }
}

// The rate: how many clocks a byte takes.
fn per_byte(w: Wires) -> usize
    ensures { result ≡ per_byte w }
{
    match w {
        Wires::One => 8,
        Wires::Two => 4,
        Wires::Four => 2,
    }
}

// The clocks that `b` bytes take. Whoever asks has made sure that they are no more than 65,535, which
// is more than the clocks of any transaction carry.
pub fn bytes_to_clocks(b: Bytes, w: Wires) -> Clocks
    requires { b.0 ≤ 65535 }
    ensures { result ≡ clocks_of w b }
{
    Clocks(b.0 * per_byte(w))
}

// The same for any number of bytes, but no more clocks than there are.
#[tactic(auto, unfolding(crate::specs::Units::clocks_within))]
pub fn clocks_within(b: Bytes, w: Wires, all: Clocks) -> Clocks
    ensures { result ≡ clocks_within w b all }
{
    let rate = per_byte(w);
    if all.0 / rate < b.0 {
        all
    } else {
        Clocks(b.0 * rate)
    }
}

// The whole bytes that `c` clocks carry.
pub fn clocks_to_bytes(c: Clocks, w: Wires) -> Bytes
    ensures { result ≡ whole_of w c }
{
    Bytes(c.0 / per_byte(w))
}

// The clocks of one byte.
pub fn byte_clocks(w: Wires) -> Clocks
    ensures { result ≡ byte_clocks w }
{
    Clocks(per_byte(w))
}

// Those of `c` clocks that carry no whole byte: the clocks of the byte begun last.
pub fn unfinished(c: Clocks, w: Wires) -> Clocks
    ensures { result ≡ unfinished_of w c }
{
    Clocks(c.0 % per_byte(w))
}

// The clocks of its byte that come after clock `k`, counted from 0.
pub fn coming(k: Clocks, w: Wires) -> Clocks
    ensures { result ≡ coming_of w k }
{
    let all = per_byte(w);
    Clocks(all - 1 - k.0 % all)
}

// The bits that `c` clocks carry. Whoever asks has no more clocks than a transaction has.
pub fn bits_in(c: Clocks, w: Wires) -> usize
    requires { c.0 ≤ 65535 }
    ensures { result ≡ bits_in w c }
{
    usize::from(w) * c.0
}
