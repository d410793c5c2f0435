// The plan of a command: what its clocks are for.
ghost use Rattle.std.specs.Prelude.{◌≡◌};
ghost use Rattle.commands.specs.Plans.{column_of, fixed_row, waits_by_register, wait_of, later_wires, address_of, mapped_body, read_body, write_body, body_of, writes};

use crate::registers::{register_at, size_of};
use kinds::{Kind, ReadForm, Register, Source, Target, WriteForm};
use parts::Part;
use units::{Bytes, Clocks, Wires};

// What the address of a command names, if it has one. That there is none is a case like the others, in which every address is
// allowed, and the definitions go by all six (`allowed_of`, `address_length`).
#[derive(Clone, Copy, PartialEq, Eq)]
pub enum Address {
    Absent,
    InMemory,
    InArea,
    InMap,
    LowNibbleZero,
    Ignored,
}

// The data of a command: none, so many bytes, or as many as are clocked; the definitions go by all five cases (`data_of`).
#[derive(Clone, Copy, PartialEq, Eq)]
pub enum Body {
    Nothing,
    FixedRead(Bytes),
    AnyRead,
    FixedWrite(Bytes),
    AnyWrite,
}

// Waits in clocks, a row for each wait that the papers name: on one, two and four wires, in the order in which `Wires` has them. A table,
// as document 01 asks.
const WAITS: [usize; 15] = [0, 0, 0, 8, 4, 2, 8, 0, 4, 6, 0, 6, 8, 0, 6];

// The row of a command's wait; none where the wait stands in configuration 2.
fn wait_row(k: Kind) -> Option<usize>
    ensures { result ≡ fixed_row k }
{
    match k {
        Kind::Unknown | Kind::Plain(_) | Kind::Write(_) => Some(0),
        Kind::Read(from) => match from {
            Source::Register(_) | Source::Identity | Source::Memory(ReadForm::Plain) => Some(0),
            Source::Map => Some(1),
            Source::Memory(ReadForm::Fast) => Some(2),
            Source::Memory(ReadForm::Quad) => Some(3),
            Source::Memory(ReadForm::Wrapped) | Source::Mode => Some(4),
            Source::Area => None,
        },
    }
}

// Whether the wait stands in configuration 2.
pub fn waits_by_register(k: Kind) -> bool
    ensures { result ≡ waits_by_register k }
{
    matches!(k, Kind::Read(Source::Area))
}

// The column of a bus mode.
fn column(w: Wires) -> usize
    ensures { result ≡ column_of w }
{
    w as usize
}

// The clocks between address and data. Those of the augmented read, which only the MRAM has, stand in the low
// four bits of configuration 2.
pub fn wait_of(k: Kind, w: Wires, cr2: u8) -> Clocks
    ensures { result ≡ wait_of k w cr2 }
{
    let Some(row) = wait_row(k) else {
        return Clocks::stated(usize::from(cr2 % 16));
    };
    Clocks::stated(WAITS[3 * row + column(w)])
}

// The wires of all that follows the command byte.
pub fn later_wires(k: Kind, w: Wires) -> Wires
    ensures { result ≡ later_wires k w }
{
    match k {
        Kind::Read(Source::Memory(ReadForm::Quad)) | Kind::Write(Target::Memory(WriteForm::Quad)) =>
            Wires::Four,
        _ => w,
    }
}

// What the address of a command names.
pub fn address_of(k: Kind) -> Address
    ensures { result ≡ address_of k }
{
    match k {
        Kind::Unknown | Kind::Plain(_) => Address::Absent,
        Kind::Read(Source::Register(_)) | Kind::Write(Target::Register(_)) => Address::Absent,
        Kind::Read(Source::Map) => Address::InMap,
        Kind::Read(Source::Mode) | Kind::Write(Target::Mode) => Address::LowNibbleZero,
        Kind::Read(Source::Identity) => Address::Ignored,
        Kind::Read(Source::Memory(_)) | Kind::Write(Target::Memory(_)) => Address::InMemory,
        Kind::Read(Source::Area) | Kind::Write(Target::Area) => Address::InArea,
    }
}

// The data of a register read by address: as long as the register that the address names.
fn mapped_body(m: Option<Register>) -> Body
    ensures { result ≡ mapped_body m }
{
    m.map_or(Body::Nothing, |r| Body::FixedRead(size_of(r)))
}

// The data of a read. The address counts where it names the register that is read.
fn read_body(part: Part, from: Source, address: u32) -> Body
    ensures { result ≡ read_body part from address }
{
    match from {
        Source::Register(r) => Body::FixedRead(size_of(r)),
        Source::Map => mapped_body(register_at(part, address)),
        Source::Mode => Body::FixedRead(size_of(Register::ModeRegister)),
        Source::Identity => Body::FixedRead(size_of(Register::LongIdentity)),
        Source::Memory(_) | Source::Area => Body::AnyRead,
    }
}

// The data of a write.
fn write_body(to: Target) -> Body
    ensures { result ≡ write_body to }
{
    match to {
        Target::Register(r) => Body::FixedWrite(size_of(r)),
        Target::Mode => Body::FixedWrite(size_of(Register::ModeRegister)),
        Target::Memory(_) | Target::Area => Body::AnyWrite,
    }
}

// The data of a command.
pub fn body_of(part: Part, k: Kind, address: u32) -> Body
    ensures { result ≡ body_of part k address }
{
    match k {
        Kind::Unknown | Kind::Plain(_) => Body::Nothing,
        Kind::Read(from) => read_body(part, from, address),
        Kind::Write(to) => write_body(to),
    }
}

// Whether it is a write.
pub fn is_write(b: Body) -> bool
    ensures { result ≡ writes b }
{
    matches!(b, Body::FixedWrite(_) | Body::AnyWrite)
}
