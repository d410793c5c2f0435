// One byte of a burst: stored where it lies, or read and driven; and how many of a burst lie at protected places.
//
// The number of the byte is below 65,536 and the memory no larger than an address reaches, as in `places`, where it stands why the
// number of a byte has no type with this bound; nor has that of a clock, and for n it stands at `record::Setting`.
#![tactic(auto)]

ghost use Rattle.std.specs.Prelude.{◌≡◌, ◌≤◌, get_or, set};
ghost use Rattle.contract_words.specs.Words.{lends};
ghost use Rattle.paper.specs.Storing.{into_area, protected_at, put_at, shut_among};
ghost use Rattle.paper.specs.Driving.{mapped_byte, found_at, byte_read, level_at, driven_at};

use commands::plans::Body;
use commands::registers::register_at;
use kinds::{Kind, Register, Source, Target};
use record::{Aim, Device};
use units::{Bytes, Clocks};

// Whether a write goes to the area.
fn is_into_area(k: Kind) -> bool
    ensures { result ≡ into_area k }
{
    matches!(k, Kind::Write(Target::Area))
}

// Whether byte `i` of a write lies at a protected place.
#[tactic(auto, unfolding(paper::specs::Storing::protected_at))]
pub fn protected_at(a: Aim, i: Bytes) -> bool
    requires { (a.setting.n ≤ 24) × (i.0 ≤ 65535) }
    ensures { result ≡ protected_at a i }
{
    let s = a.setting;
    if is_into_area(a.kind) {
        places::area_protected(s, places::area_place(s.part, a.address, i))
    } else {
        places::protected(s, places::write_place(s, a.address, i))
    }
}

// How many of the first `m` bytes of a write lie at protected places: one walk over them. The definition counts by `how_many`, up to a
// number; for `filter` and `count` over the range, which count over a list, the proof does not close.
pub fn shut_among(a: Aim, m: Bytes) -> Bytes
    requires { (a.setting.n ≤ 24) × (m.0 ≤ 65535) }
    ensures { result ≡ shut_among a m }
{
    let mut shut = Bytes::none();
    for i in 0..m.in_bytes() {
        if protected_at(a, Bytes::stated(i)) {
            shut = shut.next();
        }
    }
    shut
}

// A byte at a place, where the store has it. The place is tested: `get_mut` would tell nothing of the other bytes, and the clause
// tells all of them.
pub fn put(store: &mut [u8], place: usize, b: u8)
    ensures { store.new ≡ set store.old place b }
{
    if place < store.len() {
        store[place] = b;
    }
}

// Byte `i` of a write, stored. Memory and area are lent as two slices, here and in all that calls this: in a struct of the two each
// function would have to promise besides that it hands the same two slices back, and the reads, which lend them shared, would need
// a second struct, so it would be no plainer.
#[tactic(auto, unfolding(paper::specs::Storing::put_at))]
pub fn put_at(a: Aim, i: Bytes, b: u8, memory: &mut [u8], area: &mut [u8])
    requires { (a.setting.n ≤ 24) × (i.0 ≤ 65535) }
    ensures { lends memory.new area.new ≡ put_at a i b (lends memory.old area.old) }
{
    let s = a.setting;
    if is_into_area(a.kind) {
        put(area, places::area_place(s.part, a.address, i), b);
    } else {
        put(memory, places::write_place(s, a.address, i), b);
    }
}

// The byte at a place, and 0 where the store has it not.
fn get(store: &[u8], place: usize) -> u8
    ensures { result ≡ get_or store.now place 0 }
{
    store.get(place).copied().unwrap_or(0)
}

fn mapped_byte(d: Device, m: Option<Register>, i: Bytes) -> u8
    ensures { result ≡ mapped_byte d m i }
{
    m.map_or(0, |r| d.shown_byte(r, i))
}

// Byte `i` of what a read finds at its source. The definitions from `found_at` to `driven_at` take record, kind, address and what is
// lent one by one, and so do the functions; an `Aim` has a setting alone, and the registers that are read stand in the record.
fn found_at(d: Device, from: Source, address: u32, memory: &[u8], area: &[u8], i: Bytes) -> u8
    requires { (d.make.n ≤ 24) × (i.0 ≤ 65535) }
    ensures { result ≡ found_at d from address (lends memory.now area.now) i }
{
    let s = d.setting();
    match from {
        Source::Register(r) => d.shown_byte(r, i),
        Source::Map => mapped_byte(d, register_at(s.part, address), i),
        Source::Mode => d.shown_byte(Register::ModeRegister, i),
        Source::Identity => d.shown_byte(Register::LongIdentity, i),
        Source::Memory(_) => get(memory, places::read_place(s, address, i)),
        Source::Area => get(area, places::area_place(s.part, address, i)),
    }
}

// Byte `i` of what a command reads.
#[tactic(auto, unfolding(paper::specs::Driving::byte_read))]
fn byte_read(d: Device, k: Kind, address: u32, memory: &[u8], area: &[u8], i: Bytes) -> u8
    requires { (d.make.n ≤ 24) × (i.0 ≤ 65535) }
    ensures { result ≡ byte_read d k address (lends memory.now area.now) i }
{
    match k {
        Kind::Read(from) => found_at(d, from, address, memory, area, i),
        Kind::Unknown | Kind::Plain(_) | Kind::Write(_) => 0,
    }
}

// The output byte of data clock `t` of a read.
#[tactic(auto, unfolding(paper::specs::Driving::level_at))]
fn level_at(d: Device, k: Kind, address: u32, memory: &[u8], area: &[u8], t: Clocks) -> u8
    requires { (d.make.n ≤ 24) × (t.0 ≤ 65535) }
    ensures { result ≡ level_at d k address (lends memory.now area.now) t }
{
    let w = plan_in_force::wires_for(d.setting(), k);
    let b = byte_read(d, k, address, memory, area, units::clocks_to_bytes(t, w));
    wires::level(wires::group(b, t, w), w)
}

// The output byte of data clock `t` of any command: only reads drive.
pub fn driven_at(
    b: Body,
    d: Device,
    k: Kind,
    address: u32,
    memory: &[u8],
    area: &[u8],
    t: Clocks,
) -> u8
    requires { (d.make.n ≤ 24) × (t.0 ≤ 65535) }
    ensures { result ≡ driven_at b d k address (lends memory.now area.now) t }
{
    match b {
        Body::FixedRead(_) | Body::AnyRead => level_at(d, k, address, memory, area, t),
        Body::Nothing | Body::FixedWrite(_) | Body::AnyWrite => 0,
    }
}
