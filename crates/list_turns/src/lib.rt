// The records of a tape for people: each is played, and its paragraph put on the page.
#![tactic(auto)]

use list_endings::put_last;
use list_paragraphs::{Played, State, put_head, put_played};
use std::fmt;
use tape::Chip;
use tape_reader::Reader;
use tape_session::{Session, TURNS, Turn};
use text::Page;

// Memory and area for a chip, which has the front of them.
#[derive(Drop)]
pub struct Stores<'a> {
    pub memory: &'a mut [u8],
    pub area: &'a mut [u8],
}

// The first bytes as they are now.
fn keep(old: &mut [u8], now: &[u8], size: usize) {
    if let (Some(kept), Some(bytes)) = (old.get_mut(..size), now.get(..size)) {
        kept.copy_from_slice(bytes);
    }
}

impl Stores<'_> {
    // Keeps the bytes of the chip in the socket, to be compared with those after the next record.
    fn keep(&mut self, now: &Stores, s: Session) {
        if let Some(chip) = s.chip {
            keep(self.memory, now.memory, chip.socket.memory.in_bytes());
            keep(self.area, now.area, chip.socket.area.in_bytes());
        }
    }

    // A chip with its part of them.
    fn state(&self, chip: Chip) -> Option<State<'_>> {
        Some(State {
            device: chip.device,
            memory: self.memory.get(..chip.socket.memory.in_bytes())?,
            area: self.area.get(..chip.socket.area.in_bytes())?,
        })
    }
}

// The paragraph of record `k`, which stands at a place of the tape and came to `t`.
fn put_turn(
    page: &mut Page,
    k: u64,
    r: Reader,
    t: Turn,
    before: &Stores,
    now: &Stores,
    output: &[u8],
) {
    let after = Chip {
        device: t.outcome.device,
        ..t.chip
    };
    let (Some(old), Some(new)) = (before.state(t.chip), now.state(after)) else {
        return;
    };
    let played = Played {
        old,
        new,
        outcome: t.outcome,
        samples: r.payload(),
        output,
    };
    put_head(page, k, r.at);
    put_played(page, t.entry, played);
}

// Every record, to the end or to one that is bad. `before` has room for the bytes as they were before a record. The loop is its own: it
// keeps bytes before a record is played, and a closure that is given all that is lent is no plainer.
pub fn put_turns(
    page: &mut Page,
    tape: &[u8],
    now: &mut Stores,
    before: &mut Stores,
    output: &mut [u8],
) {
    let mut session = tape_session::start();
    for k in 0..TURNS {
        before.keep(now, session);
        match tape_session::advance(session, tape, now.memory, now.area, output) {
            Ok(turn) => {
                let reader = Reader::opened(tape, session.at);
                put_turn(page, k + 1, reader, turn, before, now, output);
                text::flush_full(page);
                session = turn.session;
            }
            Err(why) => return put_last(page, k, why, tape, session.at),
        }
    }
}
