// A place on a tape that is lent, tape and all, and what stands there. The work is `tape::entry_at`'s, which takes a plain slice
// and a number (D37).
#![tactic(auto)]

ghost use Rattle.std.specs.Prelude.{◌≡◌};
ghost use Rattle.tape.specs.Tape.{found_of, payload_of};

use tape::{Fault, Found};

#[derive(Clone, Copy)]
pub struct Reader<'a> {
    pub tape: &'a [u8],
    pub at: usize,
}

impl<'a> Reader<'a> {
    // A reader at a place of a tape.
    pub fn opened(tape: &'a [u8], at: usize) -> Reader<'a>
        ensures { (result.tape ≡ tape.entry) × (result.at ≡ at) }
    {
        Reader { tape, at }
    }

    // What stands at its place.
    pub fn found(self) -> Result<Option<Found>, Fault>
        ensures { result ≡ found_of self.entry.tape.now self.entry.at }
    {
        tape::entry_at(self.tape, self.at)
    }

    // The payload of the record at its place, and nothing where there is no whole record.
    #[tactic(auto, using(tape::specs::Laws::found_first, tape::specs::Laws::found_last))]
    pub fn payload(self) -> &'a [u8]
        ensures { result.now ≡ payload_of self.entry.tape.now (found_of self.entry.tape.now self.entry.at) }
    {
        match self.found() {
            Ok(Some(f)) => &self.tape[f.from..f.next],
            _ => &[],
        }
    }
}
