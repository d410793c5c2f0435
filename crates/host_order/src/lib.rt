// What the host is asked to build, and what of it is refused: each row of the host's table but the last, which looks
// at the samples.
#![tactic(auto)]

ghost use Rattle.std.specs.Prelude.{◌≡◌, ◌||◌, []};
ghost use Rattle.units.specs.Units.{bytes, fewer_bytes};
ghost use Rattle.paper.specs.Building.{asked, addressed, beyond, overlong, too_few, too_many, kind_asked, body_asked};
ghost use Rattle.host_order.specs.Orders.{order_as};

use commands::plans::{Address, Body, address_of, body_of, waits_by_register};
use kinds::{Kind, Source};
use opcodes::kind_of;
use parts::Part;
use record::mode_wires;
use units::Bytes;

// The bytes of the longest registers.
const MOST_OF_REGISTER: usize = 8;

// A command in numbers: any values at all. `kind_asked` answers `Unknown` to a part or a mode that there is not. `wanted` is
// the number of bytes to read; what is to be written is lent beside it. Order and kind go apart, and the questions are no methods:
// the kind is found once, and the definitions of the paper are asked with both (`body_asked`, `beyond`, `built_of`).
#[derive(Clone, Copy)]
pub struct Order {
    pub part: u8,
    pub opcode: u8,
    pub mode: u8,
    pub address: u32,
    pub cr2: u8,
    pub wanted: Bytes,
}

// The kind of the command; a part or a mode that there is not has none.
pub fn kind_asked(o: Order) -> Kind
    ensures { result ≡ kind_asked (order_as o []) }
{
    let Ok(part) = Part::try_from(o.part) else {
        return Kind::Unknown;
    };
    let family = part.family();
    if !state_check::mode_allowed(family, o.mode) {
        return Kind::Unknown;
    }
    kind_of(family, mode_wires(o.mode), o.opcode)
}

// The data that may be asked for: up to eight bytes of any register, whatever the map says.
fn asked_of(k: Kind, b: Body) -> Body
    ensures { result ≡ asked k b }
{
    match k {
        Kind::Read(Source::Map) => Body::FixedRead(Bytes::stated(MOST_OF_REGISTER)),
        _ => b,
    }
}

pub fn body_asked(o: Order, k: Kind) -> Body
    ensures { result ≡ body_asked (order_as o []) k }
{
    asked_of(k, body_of(Part::of(o.part), k, o.address))
}

// Whether a command has an address.
fn is_addressed(a: Address) -> bool
    ensures { result ≡ addressed a }
{
    a != Address::Absent
}

// 7: an address that 24 bits do not hold, where there is one.
#[tactic(auto, unfolding(paper::specs::Building::beyond))]
pub fn is_beyond(o: Order, k: Kind) -> bool
    ensures { result ≡ beyond k o.address }
{
    is_addressed(address_of(k)) && 0xFFFFFF < o.address
}

// 10: a wait that four bits do not hold, where it stands in configuration 2.
#[tactic(auto, unfolding(paper::specs::Building::overlong))]
pub fn is_overlong_wait(o: Order, k: Kind) -> bool
    ensures { result ≡ overlong k o.cr2 }
{
    waits_by_register(k) && 0x0F < o.cr2
}

// 4: a register write wants all of its bytes, every other command with data one. Data, wanted and written are parameters of their own here,
// in `is_many` and in `host_build::bytes_sent`, as `too_few` and `too_many` of the paper take them; an order has `wanted` alone.
pub fn is_few(b: Body, wanted: Bytes, written: Bytes) -> bool
    ensures { result ≡ too_few b wanted written }
{
    match b {
        Body::Nothing => false,
        Body::FixedRead(_) | Body::AnyRead => wanted < Bytes::one(),
        Body::FixedWrite(size) => written < size,
        Body::AnyWrite => written < Bytes::one(),
    }
}

// 11: a register has a size, and a command without data has none to give or take.
pub fn is_many(b: Body, wanted: Bytes, written: Bytes) -> bool
    ensures { result ≡ too_many b wanted written }
{
    match b {
        Body::Nothing => is_any(wanted, written),
        Body::FixedRead(size) => size < wanted,
        Body::FixedWrite(size) => size < written,
        Body::AnyRead | Body::AnyWrite => false,
    }
}

fn is_any(wanted: Bytes, written: Bytes) -> bool
    ensures { result ≡ (fewer_bytes (bytes 0) written || fewer_bytes (bytes 0) wanted) }
{
    Bytes::none() < written || Bytes::none() < wanted
}
