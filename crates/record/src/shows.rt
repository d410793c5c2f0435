// What a read of a register shows.
ghost use Rattle.std.specs.Prelude.{◌≡◌};
ghost use Rattle.record.specs.Shows.{without_latch, status_shown, one, shown, shown_byte};

use crate::devices::Device;
use kinds::Register;
use units::Bytes;

impl Device {
    // What a read of a register shows, in eight places.
    fn shown(self, r: Register) -> [u8; 8]
        ensures { result ≡ shown self r }
    {
        match r {
            Register::Status => one(status_shown(self.registers.status, self.volatile.latch)),
            Register::AreaProtection => one(self.registers.protection),
            Register::Configuration1 => one(self.registers.cr1),
            Register::Configuration2 => one(self.registers.cr2),
            Register::Configuration3 => one(self.registers.cr3),
            Register::Configuration4 => one(self.registers.cr4),
            Register::Configurations => {
                let s = self.registers;
                [s.cr1, s.cr2, s.cr3, s.cr4, 0, 0, 0, 0]
            }
            Register::Identity | Register::LongIdentity => self.identity.device,
            Register::Unique => self.identity.unique,
            Register::Serial => self.identity.serial,
            Register::ModeRegister => one(self.registers.mr0),
        }
    }

    // Byte `i` that a read of a register drives.
    pub fn shown_byte(self, r: Register, i: Bytes) -> u8
        ensures { result ≡ shown_byte self r i }
    {
        self.shown(r).get(i.in_bytes()).copied().unwrap_or(0)
    }
}

// A register of one byte, in the eight places that the longest register has.
fn one(v: u8) -> [u8; 8]
    ensures { result ≡ one v }
{
    [v, 0, 0, 0, 0, 0, 0, 0]
}

// A status byte without its bit 1.
pub fn without_latch(v: u8) -> u8
    ensures { result ≡ without_latch v }
{
    v / 4 * 4 + v % 2
}

// The status register as it is read: bit 1 shows the latch.
fn status_shown(v: u8, latch: bool) -> u8
    ensures { result ≡ status_shown v latch }
{
    if latch {
        without_latch(v) + 2
    } else {
        without_latch(v)
    }
}
