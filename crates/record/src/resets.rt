// What a reset and a power cycle leave of the record.
ghost use Rattle.std.specs.Prelude.{◌≡◌};
ghost use Rattle.record.specs.Resets.{reset_of, powered_of};

use crate::devices::Device;
use parts::{Family, Part, PartP};

impl Device {
    // Latch and mode on the MRAM; mode, mode register and toggle on the PSRAM.
    pub fn reset(mut self) -> Self
        ensures { result ≡ reset_of self }
    {
        let family = Part::of(self.make.part).family();
        self.volatile.mode = 1;
        match family {
            Family::Mram => self.volatile.latch = false,
            Family::Psram => {
                self.registers.mr0 = PartP::FRESH_MR0;
                self.volatile.toggle = false;
            }
        }
        self
    }

    // What a power cycle does to the record.
    pub fn powered(self) -> Self
        ensures { result ≡ powered_of self }
    {
        self.reset().asleep(false).armed(false)
    }
}
