// What is known of an unfinished transaction. It stands below the device record, so that a record can hold it.
#![tactic(auto)]

ghost use Rattle.std.specs.Prelude.{◌≡◌};
ghost use Rattle.progress.specs.Progress.{nothing_yet, counting, entered, onward, begin_of};

use counts::Counts;
pub use counts::Phase;
use kinds::Kind;

// What the clocks so far come to: their counts, and the eight places of a register write (D59).
#[derive(Clone, Copy)]
pub struct Tally {
    pub counts: Counts,
    pub value: [u8; 8],
}

// The phase, the kind of command and the address once they are whole, the number being gathered, and the tally.
#[derive(Clone, Copy)]
pub struct Progress {
    pub phase: Phase,
    pub kind: Kind,
    pub address: u32,
    pub number: u32,
    pub tally: Tally,
}

impl Tally {
    pub fn none() -> Self
        ensures { result ≡ nothing_yet }
    {
        Tally {
            counts: Counts::none(),
            value: [0u8; 8],
        }
    }

    // With other counts.
    pub fn counting(mut self, counts: Counts) -> Self
        ensures { result ≡ counting counts self }
    {
        self.counts = counts;
        self
    }
}

impl Progress {
    // At the start of a phase nothing of it is gathered.
    pub fn entered(phase: Phase, kind: Kind, address: u32, tally: Tally) -> Self
        ensures { result ≡ entered phase kind address tally }
    {
        Progress {
            phase,
            kind,
            address,
            number: 0,
            tally,
        }
    }

    // A clock further in the same phase.
    pub fn onward(mut self, number: u32, tally: Tally) -> Self
        ensures { result ≡ onward number tally self }
    {
        self.number = number;
        self.tally = tally;
        self
    }

    // Before the first clock.
    pub fn begin() -> Self
        ensures { result ≡ begin_of }
    {
        Progress::entered(Phase::Command, Kind::Unknown, 0, Tally::none())
    }
}
