// The record and its fields, the setting that the rules look at, and what a call answers.
ghost use Rattle.std.specs.Prelude.{◌≡◌};
ghost use Rattle.record.specs.Devices.{mode_wires, setting_of, unclocked_of};

use crate::answers::Answer;
use counts::Counts;
use kinds::Kind;
use parts::Part;
use units::{Clocks, Wires};

// The registers that keep their contents without power, and the PSRAM's mode register.
#[derive(Clone, Copy, PartialEq, Eq)]
pub struct Registers {
    pub status: u8,
    pub protection: u8,
    pub cr1: u8,
    pub cr2: u8,
    pub cr3: u8,
    pub cr4: u8,
    pub mr0: u8,
}

// What does not outlive a power cycle: the bus mode (1, 2 or 4), the write latch, the arming of a reset, sleep,
// and the PSRAM's toggle. A reset puts mode, latch and toggle back; the arming falls with the transaction that carried it. The
// mode is a number, since any may stand in a record that a caller lends, and the state check, `underway::valid`, is false
// of one that is no mode, which is answered 3.
#[derive(Clone, Copy, PartialEq, Eq)]
pub struct Volatile {
    pub mode: u8,
    pub latch: bool,
    pub armed: bool,
    pub asleep: bool,
    pub toggle: bool,
}

// Identity and serial number, byte 0 first. The MRAM's device identity has four bytes, and the others
// are 0 (D7).
#[derive(Clone, Copy, PartialEq, Eq)]
pub struct Identities {
    pub device: [u8; 8],
    pub unique: [u8; 8],
    pub serial: [u8; 8],
}

// What a chip is made of: its part, by number, and n, its memory having 2^n bytes (D57). Any numbers may stand here; the size
// check, `device_checks::is_sized`, is false of one that stands for no part and of an n that the part is not offered in, which is
// answered 1.
#[derive(Clone, Copy, PartialEq, Eq)]
pub struct Make {
    pub part: u8,
    pub n: u8,
}

// The transaction that is open, as far as its clocks have come: only what cannot be worked out from the rest of the record
// (D85). `selected` tells that one is open, select being low. `opcode` and `address` are 0 until they are whole; `number` has the
// bits that have come of what is not whole yet, and `value` the whole bytes of a register write. Where none is open all of it is
// 0. It is no `Option`: a record may hold facts though none is open, and to it, of which `valid_of` is
// false, the answer is 3.
#[derive(Clone, Copy, PartialEq, Eq)]
pub struct Underway {
    pub selected: bool,
    pub clocks: Clocks,
    pub opcode: u8,
    pub address: u32,
    pub number: u32,
    pub value: [u8; 8],
}

#[derive(Clone, Copy, PartialEq, Eq)]
pub struct Device {
    pub make: Make,
    pub registers: Registers,
    pub volatile: Volatile,
    pub identity: Identities,
    pub underway: Underway,
}

// What neither latch nor arming has a part in: all that the rules of clocks, addresses and places ask of
// a record, with the part and the wires of the bus mode as types (D21). It has no invariant that bounds n: any record may come to
// `Device::setting`, which gives `setting_of self` and cannot fail. So the contracts that need a bound ask for it: `s.n ≤ 24`,
// `a.setting.n` or `h.setting.n` where an `Aim` or what a transaction runs under has it, `n` where it comes alone, and
// `d.make.n ≤ 24` where the record itself is at hand.
#[derive(Clone, Copy, PartialEq, Eq)]
pub struct Setting {
    pub part: Part,
    pub wires: Wires,
    pub n: u8,
    pub asleep: bool,
    pub toggle: bool,
    pub registers: Registers,
}

// What a command is aimed at: the setting, with the kind and the address that were read (D59).
#[derive(Clone, Copy, PartialEq, Eq)]
pub struct Aim {
    pub setting: Setting,
    pub kind: Kind,
    pub address: u32,
}

// What a call answers: the answer, the five counts, and the next record.
#[derive(Clone, Copy, PartialEq, Eq)]
pub struct Outcome {
    pub answer: Answer,
    pub counts: Counts,
    pub device: Device,
}

// A call without clocks.
pub fn unclocked(answer: Answer, device: Device) -> Outcome
    ensures { result ≡ unclocked_of answer device }
{
    Outcome {
        answer,
        counts: Counts::none(),
        device,
    }
}

// The wires of a bus mode, and one for any other number, which a record may hold.
pub fn mode_wires(mode: u8) -> Wires
    ensures { result ≡ mode_wires mode }
{
    match mode {
        2 => Wires::Two,
        4 => Wires::Four,
        _ => Wires::One,
    }
}

impl Device {
    pub fn setting(self) -> Setting
        ensures { result ≡ setting_of self }
    {
        Setting {
            part: Part::of(self.make.part),
            wires: mode_wires(self.volatile.mode),
            n: self.make.n,
            asleep: self.volatile.asleep,
            toggle: self.volatile.toggle,
            registers: self.registers,
        }
    }
}
