// The five clock counts that every answer carries, in the papers' order, and the phases whose clocks they count.
#![tactic(auto)]

ghost use Rattle.std.specs.Prelude.{◌≡◌, ◌<◌, ◌≤◌};
ghost use Rattle.counts.specs.Counts.{no_counts, total, tick};

use units::Clocks;

// The phases of a transaction, in their order.
#[derive(Clone, Copy, PartialEq, Eq)]
pub enum Phase {
    Command,
    Address,
    Wait,
    Data,
    Rest,
}

// `body` counts the data clocks.
#[derive(Clone, Copy, PartialEq, Eq)]
pub struct Counts {
    pub command: Clocks,
    pub address: Clocks,
    pub wait: Clocks,
    pub body: Clocks,
    pub rest: Clocks,
}

impl Counts {
    pub fn none() -> Self
        ensures { result ≡ no_counts }
    {
        let none = Clocks::none();
        Counts {
            command: none,
            address: none,
            wait: none,
            body: none,
            rest: none,
        }
    }

    // All clocks together.
    pub fn total(self) -> Clocks
        requires { (total self).0 ≤ 65535 }
        ensures { result ≡ total self }
    {
        self.command + self.address + self.wait + self.body + self.rest
    }

    // One clock more of a phase. No transaction has more than 65,535.
    pub fn tick(mut self, phase: Phase) -> Self
        requires { (total self).0 < 65535 }
        ensures { result ≡ tick phase self }
    {
        match phase {
            Phase::Command => self.command = self.command.next(),
            Phase::Address => self.address = self.address.next(),
            Phase::Wait => self.wait = self.wait.next(),
            Phase::Data => self.body = self.body.next(),
            Phase::Rest => self.rest = self.rest.next(),
        }
        self
    }
}
