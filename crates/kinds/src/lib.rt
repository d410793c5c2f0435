// What a command does, and what it reads or writes: the types, and nothing of opcodes.
#![tactic(auto)]

ghost use Rattle.std.specs.Prelude.{◌≡◌};
ghost use Rattle.kinds.specs.Tests.{unknown};

use std::fmt;

// A command without data.
#[derive(Clone, Copy, PartialEq, Eq)]
pub enum Control {
    NoOperation,
    WriteEnable,
    WriteDisable,
    ToOne,
    ToTwo,
    ToFour,
    Sleep,
    Wake,
    ResetEnable,
    Reset,
    Toggle,
}

// What a register command reads or writes. `Configurations` is all four together; `LongIdentity` is the
// eight bytes of the PSRAM.
#[derive(Clone, Copy, PartialEq, Eq)]
pub enum Register {
    Status,
    AreaProtection,
    Configuration1,
    Configuration2,
    Configuration3,
    Configuration4,
    Configurations,
    Identity,
    Unique,
    Serial,
    ModeRegister,
    LongIdentity,
}

// How a memory read is clocked, and a memory write.
#[derive(Clone, Copy, PartialEq, Eq)]
pub enum ReadForm {
    Plain,
    Fast,
    Quad,
    Wrapped,
}

#[derive(Clone, Copy, PartialEq, Eq)]
pub enum WriteForm {
    Plain,
    Quad,
}

// What a command reads. The PSRAM's mode register and its identity are read with an address, so they stand
// apart from the registers without one; `Map` is the register that an address names (D58).
#[derive(Clone, Copy, PartialEq, Eq)]
pub enum Source {
    Register(Register),
    Map,
    Mode,
    Identity,
    Memory(ReadForm),
    Area,
}

// What a command writes.
#[derive(Clone, Copy, PartialEq, Eq)]
pub enum Target {
    Register(Register),
    Mode,
    Memory(WriteForm),
    Area,
}

// What a command does, in four cases (D58). That there is no such command is one of them, and no Option around the others: the
// decision and the table of answers are stated of it (`unknown_outside`, `unknown`).
#[derive(Clone, Copy, PartialEq, Eq)]
pub enum Kind {
    Unknown,
    Plain(Control),
    Read(Source),
    Write(Target),
}

// ---- names for people

impl fmt::Display for Control {
    fn fmt<W: fmt::Write>(&self, f: &mut fmt::Formatter<W>) -> fmt::Result {
        f.write_str(match self {
            Control::NoOperation => "no operation",
            Control::WriteEnable => "write enable",
            Control::WriteDisable => "write disable",
            Control::ToOne => "go to one wire",
            Control::ToTwo => "go to two wires",
            Control::ToFour => "go to four wires",
            Control::Sleep => "sleep",
            Control::Wake => "wake",
            Control::ResetEnable => "reset enable",
            Control::Reset => "reset",
            Control::Toggle => "toggle the wrap length",
        })
    }
}

impl fmt::Display for Register {
    fn fmt<W: fmt::Write>(&self, f: &mut fmt::Formatter<W>) -> fmt::Result {
        f.write_str(match self {
            Register::Status => "status",
            Register::AreaProtection => "area protection",
            Register::Configuration1 => "configuration 1",
            Register::Configuration2 => "configuration 2",
            Register::Configuration3 => "configuration 3",
            Register::Configuration4 => "configuration 4",
            Register::Configurations => "configurations 1 to 4",
            Register::Identity | Register::LongIdentity => "identity",
            Register::Unique => "unique number",
            Register::Serial => "serial number",
            Register::ModeRegister => "mode register",
        })
    }
}

impl fmt::Display for ReadForm {
    fn fmt<W: fmt::Write>(&self, f: &mut fmt::Formatter<W>) -> fmt::Result {
        f.write_str(match self {
            ReadForm::Plain => "read memory",
            ReadForm::Fast => "fast read",
            ReadForm::Quad => "four-wire read",
            ReadForm::Wrapped => "wrapped read",
        })
    }
}

impl fmt::Display for WriteForm {
    fn fmt<W: fmt::Write>(&self, f: &mut fmt::Formatter<W>) -> fmt::Result {
        f.write_str(match self {
            WriteForm::Plain => "write memory",
            WriteForm::Quad => "four-wire write",
        })
    }
}

// Of the mode register and the identity it is the same whether or not an address goes with them. The names of the
// memory commands say themselves whether they read or write.
impl fmt::Display for Source {
    fn fmt<W: fmt::Write>(&self, f: &mut fmt::Formatter<W>) -> fmt::Result {
        match self {
            Source::Register(r) => write!(f, "read {r}"),
            Source::Map => f.write_str("read any register"),
            Source::Mode => write!(f, "read {}", Register::ModeRegister),
            Source::Identity => write!(f, "read {}", Register::LongIdentity),
            Source::Memory(form) => write!(f, "{form}"),
            Source::Area => f.write_str("read augmented area"),
        }
    }
}

impl fmt::Display for Target {
    fn fmt<W: fmt::Write>(&self, f: &mut fmt::Formatter<W>) -> fmt::Result {
        match self {
            Target::Register(r) => write!(f, "write {r}"),
            Target::Mode => write!(f, "write {}", Register::ModeRegister),
            Target::Memory(form) => write!(f, "{form}"),
            Target::Area => f.write_str("write augmented area"),
        }
    }
}

impl fmt::Display for Kind {
    fn fmt<W: fmt::Write>(&self, f: &mut fmt::Formatter<W>) -> fmt::Result {
        match self {
            Kind::Unknown => f.write_str("unknown"),
            Kind::Plain(c) => write!(f, "{c}"),
            Kind::Read(s) => write!(f, "{s}"),
            Kind::Write(t) => write!(f, "{t}"),
        }
    }
}

// ---- tests

// Whether there is no such command.
pub fn is_unknown(k: Kind) -> bool
    ensures { result ≡ unknown k }
{
    k == Kind::Unknown
}
