// Fresh chips.
ghost use Rattle.std.specs.Prelude.{◌≡◌};
ghost use Rattle.record.specs.Fresh.{fresh_registers, fresh_volatile, fresh_identity, fresh_of};

use crate::devices::{Device, Identities, Make, Registers, Underway, Volatile};
use parts::{Family, Part, PartM, PartM32, PartP};

// Registers that are all 0, from which a fresh part's differ in few.
const CLEAR: Registers = Registers {
    status: 0,
    protection: 0,
    cr1: 0,
    cr2: 0,
    cr3: 0,
    cr4: 0,
    mr0: 0,
};

impl Registers {
    // What a part's registers are when it is new.
    pub fn fresh(part: Part) -> Self
        ensures { result ≡ fresh_registers part }
    {
        match part {
            Part::M => Registers {
                cr2: PartM::FRESH_CR2,
                cr4: PartM::FRESH_CR4,
                ..CLEAR
            },
            Part::P => Registers {
                mr0: PartP::FRESH_MR0,
                ..CLEAR
            },
            Part::M32 => Registers {
                cr2: PartM32::FRESH_CR2,
                cr4: PartM32::FRESH_CR4,
                ..CLEAR
            },
        }
    }
}

impl Volatile {
    pub fn fresh() -> Self
        ensures { result ≡ fresh_volatile }
    {
        Volatile {
            mode: 1,
            latch: false,
            armed: false,
            asleep: false,
            toggle: false,
        }
    }
}

impl Identities {
    // The serial number of a new chip is 0, and so is what its family has not.
    pub fn fresh(family: Family, device: [u8; 8], unique: [u8; 8]) -> Self
        ensures { result ≡ fresh_identity family device unique }
    {
        match family {
            Family::Mram => Identities {
                device: [device[0], device[1], device[2], device[3], 0, 0, 0, 0],
                unique,
                serial: [0u8; 8],
            },
            Family::Psram => Identities {
                device,
                unique: [0u8; 8],
                serial: [0u8; 8],
            },
        }
    }
}

impl Device {
    // A fresh chip of this make. Of the device identity the MRAM has the first four bytes; the PSRAM has no
    // unique number.
    pub fn fresh(make: Make, device: [u8; 8], unique: [u8; 8]) -> Self
        ensures { result ≡ fresh_of make device unique }
    {
        let part = Part::of(make.part);
        Device {
            make,
            registers: Registers::fresh(part),
            volatile: Volatile::fresh(),
            identity: Identities::fresh(part.family(), device, unique),
            underway: Underway::none(),
        }
    }
}
