// The record with one field changed.
ghost use Rattle.std.specs.Prelude.{◌≡◌};
ghost use Rattle.record.specs.Fields.{latch_to, arm_to, mode_to, sleep_to, toggle_to, no_underway, just_open, underway_to, opened_of, closed_of};

use crate::devices::{Device, Underway};
use units::Clocks;

impl Underway {
    // No transaction is open.
    pub fn none() -> Self
        ensures { result ≡ no_underway }
    {
        Underway {
            selected: false,
            clocks: Clocks::none(),
            opcode: 0,
            address: 0,
            number: 0,
            value: [0u8; 8],
        }
    }

    // One is open, and no clock has come.
    pub fn begun() -> Self
        ensures { result ≡ just_open }
    {
        Underway {
            selected: true,
            ..Underway::none()
        }
    }
}

impl Device {
    // The latch up or down.
    pub fn latched(mut self, up: bool) -> Self
        ensures { result ≡ latch_to up self }
    {
        self.volatile.latch = up;
        self
    }

    // Armed for a reset, or not.
    pub fn armed(mut self, on: bool) -> Self
        ensures { result ≡ arm_to on self }
    {
        self.volatile.armed = on;
        self
    }

    // The mode is a number, as in `Volatile`: `mode_to` takes any.
    pub fn in_mode(mut self, mode: u8) -> Self
        ensures { result ≡ mode_to mode self }
    {
        self.volatile.mode = mode;
        self
    }

    pub fn asleep(mut self, on: bool) -> Self
        ensures { result ≡ sleep_to on self }
    {
        self.volatile.asleep = on;
        self
    }

    // The PSRAM's toggle on or off.
    pub fn toggled(mut self, on: bool) -> Self
        ensures { result ≡ toggle_to on self }
    {
        self.volatile.toggle = on;
        self
    }

    // With a transaction come so far.
    pub fn with_underway(mut self, underway: Underway) -> Self
        ensures { result ≡ underway_to underway self }
    {
        self.underway = underway;
        self
    }

    // With one opened, and with none open.
    pub fn opened(self) -> Self
        ensures { result ≡ opened_of self }
    {
        self.with_underway(Underway::begun())
    }

    pub fn closed(self) -> Self
        ensures { result ≡ closed_of self }
    {
        self.with_underway(Underway::none())
    }
}
