// What tells one part from another: the parts and their limits, and the lengths and shares that their
// registers choose.
#![tactic(auto)]

ghost use Rattle.std.specs.Prelude.{◌≡◌};
ghost use Rattle.parts.specs.Parts.{part_of, part_named, part_number, family_of, least_of, most_of, offered, area_of, section_of, wrap_codes, limits_of};
ghost use Rattle.parts.specs.Lengths.{wrap_length, group_length, share_of};

use std::fmt;
use units::Bytes;

// The limits of a part: a memory has 2^n bytes, n from `least` to `most`; the bytes of the augmented area and of each of its
// eight sections; and how many codes of configuration 3 name a group, the codes after them being reserved.
#[derive(Clone, Copy)]
pub struct Limits {
    pub least: u8,
    pub most: u8,
    pub area: usize,
    pub section: usize,
    pub wrap_codes: u8,
}

// Part M, the serial MRAM. Its memories of 2^17, 2^19, 2^20 and 2^21 bytes are sold; the smaller ones are
// the bench's. Its limits and fresh registers are constants of its type (D36).
#[derive(Clone, Copy)]
pub struct PartM;

impl PartM {
    pub const NUMBER: u8 = 1;

    pub const LIMITS: Limits = Limits {
        least: 10,
        most: 21,
        area: 256,
        section: 32,
        wrap_codes: 5,
    };

    pub const FRESH_CR2: u8 = 0x08;

    pub const FRESH_CR4: u8 = 0x05;
}

// Part P, the serial PSRAM. It has no augmented area.
#[derive(Clone, Copy)]
pub struct PartP;

impl PartP {
    pub const NUMBER: u8 = 2;

    pub const LIMITS: Limits = Limits {
        least: 10,
        most: 21,
        area: 0,
        section: 0,
        wrap_codes: 0,
    };

    pub const FRESH_MR0: u8 = 0x60;
}

// Part M32, the serial MRAM of 32 Mbit. Of its memories that of 2^22 bytes is sold. Its fresh registers are those of part M.
#[derive(Clone, Copy)]
pub struct PartM32;

impl PartM32 {
    pub const NUMBER: u8 = 3;

    pub const LIMITS: Limits = Limits {
        least: 10,
        most: 22,
        area: 512,
        section: 64,
        wrap_codes: 7,
    };

    pub const FRESH_CR2: u8 = PartM::FRESH_CR2;

    pub const FRESH_CR4: u8 = PartM::FRESH_CR4;
}

// The largest memory and the largest area of all parts: room for any chip.
pub const LARGEST_MEMORY: usize = 4194304;

pub const LARGEST_AREA: usize = 512;

// Rules go by the family: commands, latch, protection, groups, reset and power (D57).
#[derive(Clone, Copy, PartialEq, Eq)]
pub enum Family {
    Mram,
    Psram,
}

// Limits go by the part: n, the area and its sections, the codes of groups, the register map, fresh registers (D57).
#[derive(Clone, Copy, PartialEq, Eq)]
pub enum Part {
    M,
    P,
    M32,
}

impl fmt::Display for Part {
    fn fmt<W: fmt::Write>(&self, f: &mut fmt::Formatter<W>) -> fmt::Result {
        f.write_str(match self {
            Part::M => "part M",
            Part::P => "part P",
            Part::M32 => "part M32",
        })
    }
}

// A number that stands for no part.
#[derive(Clone, Copy, PartialEq, Eq)]
pub struct UnknownPart(pub u8);

// The part of a number that stands for one.
impl TryFrom<u8> for Part {
    type Error = UnknownPart;

    ghost try_from_gives = { λ number r. r ≡ part_named number };

    fn try_from(number: u8) -> Result<Self, UnknownPart> {
        match number {
            PartM::NUMBER => Ok(Part::M),
            PartP::NUMBER => Ok(Part::P),
            PartM32::NUMBER => Ok(Part::M32),
            _ => Err(UnknownPart(number)),
        }
    }
}

// The number that stands for a part.
impl From<Part> for u8 {
    ghost from_gives = { λ part number. number ≡ part_number part };

    fn from(part: Part) -> u8 {
        match part {
            Part::M => PartM::NUMBER,
            Part::P => PartP::NUMBER,
            Part::M32 => PartM32::NUMBER,
        }
    }
}

impl Part {
    // The part of a number that stands for one; M for any other number, which a record may hold and the checks refuse.
    pub fn of(number: u8) -> Self
        ensures { result ≡ part_of number }
    {
        Part::try_from(number).unwrap_or(Part::M)
    }

    pub fn family(self) -> Family
        ensures { result ≡ family_of self }
    {
        match self {
            Part::M | Part::M32 => Family::Mram,
            Part::P => Family::Psram,
        }
    }

    // The limits, which are a constant of the part's type.
    fn limits(self) -> Limits
        ensures { result ≡ limits_of self }
    {
        match self {
            Part::M => PartM::LIMITS,
            Part::P => PartP::LIMITS,
            Part::M32 => PartM32::LIMITS,
        }
    }

    // The smallest and the largest n of a memory of 2^n bytes.
    pub fn least(self) -> u8
        ensures { result ≡ least_of self }
    {
        self.limits().least
    }

    pub fn most(self) -> u8
        ensures { result ≡ most_of self }
    {
        self.limits().most
    }

    // How many codes of configuration 3 name a group; the codes after them are reserved.
    pub fn wrap_codes(self) -> u8
        ensures { result ≡ wrap_codes self }
    {
        self.limits().wrap_codes
    }

    // The bytes of the augmented area.
    pub fn area(self) -> Bytes
        ensures { result ≡ area_of self }
    {
        Bytes::stated(self.limits().area)
    }

    // The bytes of each of its eight sections.
    pub fn section(self) -> Bytes
        ensures { result ≡ section_of self }
    {
        Bytes::stated(self.limits().section)
    }
}

// Lengths and shares are read from tables, as document 01 asks.

// Bytes of an aligned group of the MRAM, by the code in configuration 3. The codes that a record cannot
// have go on in the same way.
const WRAPS: [usize; 8] = [16, 32, 64, 128, 256, 512, 1024, 2048];

// Bytes of an aligned group of the PSRAM, by the code in the mode register.
const GROUPS: [usize; 4] = [16, 32, 64, 512];

// Protected parts of memory out of 64, by the code in the status register.
const SHARES: [usize; 8] = [0, 1, 2, 4, 8, 16, 32, 64];

// The group inside which memory reads of the MRAM wrap, by configuration 3.
pub fn wrap_length(cr3: u8) -> Bytes
    ensures { result ≡ wrap_length cr3 }
{
    Bytes::stated(WRAPS[usize::from(cr3 % 8)])
}

// The group inside which the PSRAM wraps, by the mode register.
pub fn group_length(mr0: u8) -> Bytes
    ensures { result ≡ group_length mr0 }
{
    Bytes::stated(GROUPS[usize::from(mr0 / 32 % 4)])
}

// How many of 64 equal parts of memory the status register protects.
pub fn share(status: u8) -> usize
    ensures { result ≡ share_of status }
{
    SHARES[usize::from(status / 4 % 8)]
}

// Whether a part has memories of 2^n bytes.
#[tactic(auto, unfolding(crate::specs::Parts::offered))]
pub fn is_offered(part: Part, n: u8) -> bool
    ensures { result ≡ offered part n }
{
    part.least() <= n && n <= part.most()
}
