// A tape played record by record: the place on it, and the chip in the socket.
#![tactic(auto)]

ghost use Rattle.std.specs.Prelude.{◌≡◌};
ghost use Rattle.contract_words.specs.Words.{lends};
ghost use Rattle.tape_session.specs.declared.Stop.TheVariants.{Bad};
ghost use Rattle.tape_session.specs.Session.{started, turned_of, turn_of};

use record::Outcome;
use tape::{Chip, Entry, Fault, chip_for, play_at};
use tape_reader::Reader;

// The place on the tape, and the chip in the socket, where there is one.
#[derive(Clone, Copy)]
pub struct Session {
    pub at: usize,
    pub chip: Option<Chip>,
}

// What a record came to: what it was, the chip that it was played on, as it was before, what that answered, and where the session is
// then.
#[derive(Clone, Copy)]
pub struct Turn {
    pub entry: Entry,
    pub chip: Chip,
    pub outcome: Outcome,
    pub session: Session,
}

// Why no record is played: the tape ends, the record is bad, or it wants a chip in the socket or more bytes than are lent.
#[derive(Clone, Copy, PartialEq, Eq)]
pub enum Stop {
    End,
    Bad(Fault),
    Unready(Entry),
}

impl From<Fault> for Stop {
    ghost from_gives = { λ fault stop. stop ≡ Bad fault };

    fn from(fault: Fault) -> Stop {
        Stop::Bad(fault)
    }
}

// Every record takes four bytes of the tape or more, so that a tape has no more turns than these, the one at its end included. The
// loop over them stands where the lines are printed: each program leaves it for its own reasons, and prints at its own places.
pub const TURNS: u64 = 16385;

// The front of a tape and an empty socket.
pub fn start() -> Session
    ensures { result ≡ started }
{
    Session { at: 0, chip: None }
}

// The record at the session's place, played on the chip's part of memory and area. Where it cannot be played, or
// too little is lent for its chip, nothing changes. Memory, area and output are lent apart, as the calls of the device and the C interface
// have them.
#[tactic(auto, unfolding(crate::specs::Session::turn_of))]
pub fn advance(
    s: Session,
    tape: &[u8],
    memory: &mut [u8],
    area: &mut [u8],
    output: &mut [u8],
) -> Result<Turn, Stop>
    ensures { turned_of result memory.new area.new output.new ≡ turn_of s tape.now (lends memory.old area.old) output.old }
{
    let f = Reader::opened(tape, s.at).found()?.ok_or(Stop::End)?;
    let entry = f.entry?;
    let chip = chip_for(entry, s.chip).ok_or(Stop::Unready(entry))?;
    let size = chip.socket.memory.in_bytes();
    let edge = chip.socket.area.in_bytes();
    // With `get_mut` in place of this test the proof that memory and area stay as they were (`turn_of`) does not close.
    if memory.len() < size || area.len() < edge {
        return Err(Stop::Unready(entry));
    }
    let outcome = play_at(
        tape,
        s.at,
        chip.device,
        &mut memory[..size],
        &mut area[..edge],
        output,
    );
    Ok(Turn {
        entry,
        chip,
        outcome,
        session: Session {
            at: f.next,
            chip: Some(Chip {
                device: outcome.device,
                ..chip
            }),
        },
    })
}
