// The bench tape: what stands at a place of it, and what a record does to the chip in the socket.
//
// A record is a payload length and a kind, two bytes each with the low byte first, and then the payload.
#![tactic(auto)]

ghost use Rattle.std.specs.Prelude.{◌≡◌, ◌+◌, ◌<◌, length, Ok};
ghost use Rattle.contract_words.specs.Words.{lends, world_of};
ghost use Rattle.tape.specs.Tape.{word_at, kind_named, fresh_entry, entry_for, found_of};
ghost use Rattle.tape.specs.Play.{memory_of, socket_of, chip_of, chip_for, play_of, played_at};

use parts::Part;
use record::{Answer, Device, Make, Outcome, unclocked};
use units::Bytes;

// The n of the smallest and of the largest chip that a tape has, and the bytes of the largest one's memory. There are
// larger chips.
const LEAST: u8 = 10;

const MOST: u8 = 15;

pub const LARGEST_MEMORY: usize = 32768;

// An address has so many bits: no chip has an n above it.
const ADDRESS_BITS: u8 = 24;

// The samples that a transaction on a tape has at most.
pub const MOST_SAMPLES: usize = 4096;

// The bytes of a record before its payload.
const HEAD: usize = 4;

// What is wrong with a bad record: it is cut short, it is of a kind that there is not, or its payload is not one of its
// kind, which is a transaction's, a power cycle's or a fresh chip's (D51).
#[derive(Clone, Copy, PartialEq, Eq)]
pub enum Fault {
    Cut,
    Strange,
    Samples,
    Power,
    Chip,
}

// The kinds of records.
#[derive(Clone, Copy, PartialEq, Eq)]
pub enum Kind {
    Transaction,
    PowerCycle,
    Fresh,
}

// The kind of the number that stands in a record's head.
impl TryFrom<u16> for Kind {
    type Error = Fault;

    ghost try_from_gives = { λ number r. r ≡ kind_named number };

    fn try_from(number: u16) -> Result<Self, Fault> {
        match number {
            1 => Ok(Kind::Transaction),
            2 => Ok(Kind::PowerCycle),
            3 => Ok(Kind::Fresh),
            _ => Err(Fault::Strange),
        }
    }
}

// The number of a kind.
impl From<Kind> for u16 {
    ghost from_gives = { λ kind number. kind_named number ≡ Ok kind };

    fn from(kind: Kind) -> u16 {
        match kind {
            Kind::Transaction => 1,
            Kind::PowerCycle => 2,
            Kind::Fresh => 3,
        }
    }
}

// What a record asks for.
#[derive(Clone, Copy, PartialEq, Eq)]
pub enum Entry {
    Transaction,
    PowerCycle,
    Fresh(Make),
}

// A record that stands whole on the tape: what it asks for or what is wrong with it, where its payload begins, and where the next record
// does.
#[derive(Clone, Copy)]
pub struct Found {
    pub entry: Result<Entry, Fault>,
    pub from: usize,
    pub next: usize,
}

// Two bytes, the low one first.
#[tactic(auto, unfolding(crate::specs::Tape::word_at))]
fn word_at(tape: &[u8], at: usize) -> u16
    requires { at + 1 < length tape.now }
    ensures { result ≡ word_at tape.now at }
{
    u16::from_le_bytes([tape[at], tape[at + 1]])
}

// A fresh chip of a make that the tape has.
#[tactic(auto, unfolding(crate::specs::Tape::fresh_entry))]
fn fresh_entry(make: Make) -> Result<Entry, Fault>
    ensures { result ≡ fresh_entry make }
{
    if Part::try_from(make.part).is_ok() && LEAST <= make.n && make.n <= MOST {
        Ok(Entry::Fresh(make))
    } else {
        Err(Fault::Chip)
    }
}

// What a kind and a payload ask for.
#[tactic(auto, unfolding(crate::specs::Tape::entry_for))]
fn entry_for(number: u16, payload: &[u8]) -> Result<Entry, Fault>
    ensures { result ≡ entry_for number payload.now }
{
    match (Kind::try_from(number)?, payload) {
        (Kind::Transaction, samples) if samples.len() <= MOST_SAMPLES => Ok(Entry::Transaction),
        (Kind::Transaction, _) => Err(Fault::Samples),
        (Kind::PowerCycle, []) => Ok(Entry::PowerCycle),
        (Kind::PowerCycle, _) => Err(Fault::Power),
        (Kind::Fresh, [part, n]) => fresh_entry(Make { part: *part, n: *n }),
        (Kind::Fresh, _) => Err(Fault::Chip),
    }
}

// THE CURSOR: what stands at a place of the tape, which is nothing at its end.
#[tactic(auto, unfolding(crate::specs::Tape::found_of))]
pub fn entry_at(tape: &[u8], at: usize) -> Result<Option<Found>, Fault>
    ensures { result ≡ found_of tape.now at }
{
    if tape.len() <= at {
        return Ok(None);
    }
    let left = tape.len() - at;
    if left < HEAD {
        return Err(Fault::Cut);
    }
    let long = usize::from(word_at(tape, at));
    if left - HEAD < long {
        return Err(Fault::Cut);
    }
    let from = at + HEAD;
    let next = from + long;
    let entry = entry_for(word_at(tape, at + 2), &tape[from..next]);
    Ok(Some(Found { entry, from, next }))
}

// The bytes that a chip has.
#[derive(Clone, Copy)]
pub struct Socket {
    pub memory: Bytes,
    pub area: Bytes,
}

// The bytes of memory, none where no chip is so large, and of area.
#[tactic(auto, unfolding(crate::specs::Play::memory_of))]
fn memory_of(n: u8) -> Bytes
    ensures { result ≡ memory_of n }
{
    if ADDRESS_BITS < n {
        Bytes::none()
    } else {
        places::memory_size(n)
    }
}

pub fn socket_of(make: Make) -> Socket
    ensures { result ≡ socket_of make }
{
    Socket {
        memory: memory_of(make.n),
        area: Part::of(make.part).area(),
    }
}

// A chip in the socket: the bytes that it has, and its record.
#[derive(Clone, Copy)]
pub struct Chip {
    pub socket: Socket,
    pub device: Device,
}

impl Chip {
    // A fresh one, whose identity and numbers are 0.
    pub fn fresh(make: Make) -> Chip
        ensures { result ≡ chip_of make }
    {
        Chip {
            socket: socket_of(make),
            device: Device::fresh(make, [0; 8], [0; 8]),
        }
    }
}

// The chip that a record is played on, where it can be played: a fresh one, or the one in the socket, which transactions and power
// cycles want.
pub fn chip_for(e: Entry, now: Option<Chip>) -> Option<Chip>
    ensures { result ≡ chip_for e now }
{
    match e {
        Entry::Transaction | Entry::PowerCycle => now,
        Entry::Fresh(make) => Some(Chip::fresh(make)),
    }
}

// What a record does to the chip.
fn play(
    e: Result<Entry, Fault>,
    d: Device,
    memory: &mut [u8],
    area: &mut [u8],
    samples: &[u8],
    output: &mut [u8],
) -> Outcome
    ensures { world_of result memory.new area.new output.new ≡ play_of e d (lends memory.old area.old) samples.now output.old }
{
    match e {
        Err(_) => unclocked(Answer::Size, d),
        Ok(Entry::Transaction) => device::transact(d, memory, area, samples, output),
        Ok(Entry::PowerCycle) => device::power_cycle(d, memory, area),
        Ok(Entry::Fresh(make)) => {
            memory.fill(0);
            area.fill(0);
            unclocked(Answer::Done, Chip::fresh(make).device)
        }
    }
}

// The record at a place of the tape, played. Memory, area and output are lent apart, as the calls of the device and the C interface have
// them.
#[tactic(auto, using(crate::specs::Laws::found_first, crate::specs::Laws::found_last), unfolding(crate::specs::Play::played_at))]
pub fn play_at(
    tape: &[u8],
    at: usize,
    d: Device,
    memory: &mut [u8],
    area: &mut [u8],
    output: &mut [u8],
) -> Outcome
    ensures { world_of result memory.new area.new output.new ≡ played_at tape.now at d (lends memory.old area.old) output.old }
{
    match entry_at(tape, at) {
        Ok(Some(f)) => play(f.entry, d, memory, area, &tape[f.from..f.next], output),
        _ => unclocked(Answer::Size, d),
    }
}
