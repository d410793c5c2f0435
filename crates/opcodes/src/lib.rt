// The decision over the opcode byte: the kind of a command for family and bus mode.
#![tactic(auto)]

ghost use Rattle.std.specs.Prelude.{◌≡◌, None};
ghost use Rattle.opcodes.specs.Opcodes.{entry, row_of, in_modes, kind_of};

use kinds::{Control, Kind, ReadForm, Register, Source, Target, WriteForm};
use parts::Family;
use units::Wires;

// The bus modes, by their number of wires, in which a family has an opcode.
#[derive(Clone, Copy, PartialEq, Eq)]
pub enum Modes {
    One,
    Four,
    OneTwo,
    OneFour,
    TwoFour,
    Always,
}

// What an opcode is on a family that has it, and in which bus modes.
#[derive(Clone, Copy, PartialEq, Eq)]
pub struct Meaning {
    pub kind: Kind,
    pub modes: Modes,
}

// What an opcode is on the MRAM and on the PSRAM.
#[derive(Clone, Copy, PartialEq, Eq)]
pub struct Row {
    pub mram: Option<Meaning>,
    pub psram: Option<Meaning>,
}

// An entry of a row.
fn entry(kind: Kind, modes: Modes) -> Option<Meaning>
    ensures { result ≡ entry kind modes }
{
    Some(Meaning { kind, modes })
}

// The row of an opcode that the MRAM alone has, and of one that the PSRAM alone has. One function with the family beside kind and
// modes would say the same in more words, in each of the rows below.
fn on_mram(kind: Kind, modes: Modes) -> Row
    ensures { result ≡ record { mram = entry kind modes; psram = None } }
{
    Row {
        mram: entry(kind, modes),
        psram: None,
    }
}

fn on_psram(kind: Kind, modes: Modes) -> Row
    ensures { result ≡ record { mram = None; psram = entry kind modes } }
{
    Row {
        mram: None,
        psram: entry(kind, modes),
    }
}

// Every opcode has its place here: the rows first, in the papers' order, and then the ranges that
// neither family has.
#[tactic(auto, unfolding(crate::specs::Opcodes::meaning_of))]
fn row_of(opcode: u8) -> Row
    ensures { result ≡ row_of opcode }
{
    match opcode {
        0x00 => on_mram(Kind::Plain(Control::NoOperation), Modes::Always),
        0x06 => on_mram(Kind::Plain(Control::WriteEnable), Modes::Always),
        0x04 => on_mram(Kind::Plain(Control::WriteDisable), Modes::Always),
        0x37 => on_mram(Kind::Plain(Control::ToTwo), Modes::OneFour),
        0x38 => Row {
            mram: entry(Kind::Plain(Control::ToFour), Modes::OneTwo),
            psram: entry(Kind::Write(Target::Memory(WriteForm::Quad)), Modes::OneFour),
        },
        0xFF => on_mram(Kind::Plain(Control::ToOne), Modes::TwoFour),
        0xB9 => on_mram(Kind::Plain(Control::Sleep), Modes::Always),
        0xAB => on_mram(Kind::Plain(Control::Wake), Modes::Always),
        0x66 => Row {
            mram: entry(Kind::Plain(Control::ResetEnable), Modes::Always),
            psram: entry(Kind::Plain(Control::ResetEnable), Modes::OneFour),
        },
        0x99 => Row {
            mram: entry(Kind::Plain(Control::Reset), Modes::Always),
            psram: entry(Kind::Plain(Control::Reset), Modes::OneFour),
        },
        0x05 => on_mram(
            Kind::Read(Source::Register(Register::Status)),
            Modes::Always,
        ),
        0x14 => on_mram(
            Kind::Read(Source::Register(Register::AreaProtection)),
            Modes::Always,
        ),
        0x35 => Row {
            mram: entry(
                Kind::Read(Source::Register(Register::Configuration1)),
                Modes::Always,
            ),
            psram: entry(Kind::Plain(Control::ToFour), Modes::One),
        },
        0x3F => on_mram(
            Kind::Read(Source::Register(Register::Configuration2)),
            Modes::Always,
        ),
        0x44 => on_mram(
            Kind::Read(Source::Register(Register::Configuration3)),
            Modes::Always,
        ),
        0x45 => on_mram(
            Kind::Read(Source::Register(Register::Configuration4)),
            Modes::Always,
        ),
        0x46 => on_mram(
            Kind::Read(Source::Register(Register::Configurations)),
            Modes::Always,
        ),
        0x9F => Row {
            mram: entry(
                Kind::Read(Source::Register(Register::Identity)),
                Modes::Always,
            ),
            psram: entry(Kind::Read(Source::Identity), Modes::One),
        },
        0x4C => on_mram(
            Kind::Read(Source::Register(Register::Unique)),
            Modes::Always,
        ),
        0xC3 => on_mram(
            Kind::Read(Source::Register(Register::Serial)),
            Modes::Always,
        ),
        0x65 => on_mram(Kind::Read(Source::Map), Modes::Always),
        0x03 => Row {
            mram: entry(Kind::Read(Source::Memory(ReadForm::Plain)), Modes::One),
            psram: entry(Kind::Read(Source::Memory(ReadForm::Plain)), Modes::One),
        },
        0x4B => on_mram(Kind::Read(Source::Area), Modes::One),
        0x01 => on_mram(
            Kind::Write(Target::Register(Register::Status)),
            Modes::Always,
        ),
        0x87 => on_mram(
            Kind::Write(Target::Register(Register::Configurations)),
            Modes::Always,
        ),
        0xC2 => on_mram(
            Kind::Write(Target::Register(Register::Serial)),
            Modes::Always,
        ),
        0x1A => on_mram(
            Kind::Write(Target::Register(Register::AreaProtection)),
            Modes::Always,
        ),
        0x02 => Row {
            mram: entry(Kind::Write(Target::Memory(WriteForm::Plain)), Modes::Always),
            psram: entry(
                Kind::Write(Target::Memory(WriteForm::Plain)),
                Modes::OneFour,
            ),
        },
        0x42 => on_mram(Kind::Write(Target::Area), Modes::One),
        0x0B => on_psram(Kind::Read(Source::Memory(ReadForm::Fast)), Modes::OneFour),
        0xEB => on_psram(Kind::Read(Source::Memory(ReadForm::Quad)), Modes::OneFour),
        0x8B => on_psram(
            Kind::Read(Source::Memory(ReadForm::Wrapped)),
            Modes::OneFour,
        ),
        0x82 => on_psram(
            Kind::Write(Target::Memory(WriteForm::Plain)),
            Modes::OneFour,
        ),
        0xB5 => on_psram(Kind::Read(Source::Mode), Modes::OneFour),
        0xB1 => on_psram(Kind::Write(Target::Mode), Modes::OneFour),
        0xF5 => on_psram(Kind::Plain(Control::ToOne), Modes::Four),
        0xC0 => on_psram(Kind::Plain(Control::Toggle), Modes::OneFour),
        0x07..=0x0A
        | 0x0C..=0x13
        | 0x15..=0x19
        | 0x1B..=0x34
        | 0x36
        | 0x39..=0x3E
        | 0x40..=0x41
        | 0x43
        | 0x47..=0x4A
        | 0x4D..=0x64
        | 0x67..=0x81
        | 0x83..=0x86
        | 0x88..=0x8A
        | 0x8C..=0x98
        | 0x9A..=0x9E
        | 0xA0..=0xAA
        | 0xAC..=0xB0
        | 0xB2..=0xB4
        | 0xB6..=0xB8
        | 0xBA..=0xBF
        | 0xC1
        | 0xC4..=0xEA
        | 0xEC..=0xF4
        | 0xF6..=0xFE => Row {
            mram: None,
            psram: None,
        },
    }
}

// Whether a bus mode is one of these.
fn in_modes(m: Modes, w: Wires) -> bool
    ensures { result ≡ in_modes m w }
{
    match m {
        Modes::Always => true,
        Modes::One => w == Wires::One,
        Modes::Four => w == Wires::Four,
        Modes::OneTwo => w != Wires::Four,
        Modes::OneFour => w != Wires::Two,
        Modes::TwoFour => w != Wires::One,
    }
}

// The kind of a command: what the opcode means to this family, if it has it in this bus mode.
pub fn kind_of(family: Family, w: Wires, opcode: u8) -> Kind
    ensures { result ≡ kind_of family w opcode }
{
    let row = row_of(opcode);
    let meaning = match family {
        Family::Mram => row.mram,
        Family::Psram => row.psram,
    };
    match meaning {
        Some(m) if in_modes(m.modes, w) => m.kind,
        _ => Kind::Unknown,
    }
}
