// The plan in force: how many clocks each phase of a transaction has, and what its data is, once it is known
// whether the command is answered at all.
//
// Setting, kind and address are parameters of their own here and not an `Aim`: half of the functions have no address, callers hold
// the setting apart from the `Progress` with kind and address, and the definitions, which theorems speak of, take them apart.
#![tactic(auto)]

ghost use Rattle.std.specs.Prelude.{◌≡◌, ◌≤◌};
ghost use Rattle.paper.specs.Reading.{data_of};
ghost use Rattle.paper.specs.InForce.{wakes, asleep_for, refused_at, stopped, decided, address_length, command_clocks, wires_for, address_clocks, wait_clocks, body_for};

use commands::plans::{Address, Body, address_of, body_of, later_wires, wait_of};
use kinds::{Control, Kind, is_unknown};
use record::Setting;
use units::{Bytes, Clocks, Wires, clocks_within};

// The bytes of an address.
const ADDRESS: usize = 3;

// Whether a command wakes a chip that sleeps.
fn is_waking(k: Kind) -> bool
    ensures { result ≡ wakes k }
{
    matches!(k, Kind::Plain(Control::Wake))
}

// Whether the chip sleeps through the command.
#[tactic(auto, unfolding(paper::specs::InForce::asleep_for))]
pub fn asleep_for(s: Setting, k: Kind) -> bool
    ensures { result ≡ asleep_for s k }
{
    s.asleep && !is_waking(k)
}

// Whether the command must not have this address.
#[tactic(auto, unfolding(paper::specs::InForce::refused_at))]
pub fn refused_at(s: Setting, k: Kind, address: u32) -> bool
    requires { s.n ≤ 24 }
    ensures { result ≡ refused_at s k address }
{
    !places::allowed(s, address_of(k), address)
}

// Whether the transaction is decided with its command.
#[tactic(auto, unfolding(paper::specs::InForce::stopped))]
fn is_stopped(s: Setting, k: Kind) -> bool
    ensures { result ≡ stopped s k }
{
    asleep_for(s, k) || is_unknown(k)
}

// Whether it is decided with its address.
#[tactic(auto, unfolding(paper::specs::InForce::decided))]
fn is_decided(s: Setting, k: Kind, address: u32) -> bool
    requires { s.n ≤ 24 }
    ensures { result ≡ decided s k address }
{
    is_stopped(s, k) || refused_at(s, k, address)
}

#[tactic(auto, unfolding(paper::specs::InForce::command_clocks))]
pub fn command_clocks(s: Setting) -> Clocks
    ensures { result ≡ command_clocks s }
{
    units::byte_clocks(s.wires)
}

// The wires of address, wait and data.
#[tactic(auto, unfolding(paper::specs::InForce::wires_for))]
pub fn wires_for(s: Setting, k: Kind) -> Wires
    ensures { result ≡ wires_for s k }
{
    later_wires(k, s.wires)
}

// The clocks of an address, where there is one.
pub fn address_length(a: Address, w: Wires) -> Clocks
    ensures { result ≡ address_length a w }
{
    match a {
        Address::Absent => Clocks::none(),
        _ => units::bytes_to_clocks(Bytes::stated(ADDRESS), w),
    }
}

#[tactic(auto, unfolding(paper::specs::InForce::address_clocks))]
pub fn address_clocks(s: Setting, k: Kind) -> Clocks
    ensures { result ≡ address_clocks s k }
{
    if is_stopped(s, k) {
        Clocks::none()
    } else {
        address_length(address_of(k), wires_for(s, k))
    }
}

#[tactic(auto, unfolding(paper::specs::InForce::wait_clocks))]
pub fn wait_clocks(s: Setting, k: Kind, address: u32) -> Clocks
    requires { s.n ≤ 24 }
    ensures { result ≡ wait_clocks s k address }
{
    if is_decided(s, k, address) {
        Clocks::none()
    } else {
        wait_of(k, s.wires, s.registers.cr2)
    }
}

#[tactic(auto, unfolding(paper::specs::InForce::body_for))]
pub fn body_for(s: Setting, k: Kind, address: u32) -> Body
    requires { s.n ≤ 24 }
    ensures { result ≡ body_for s k address }
{
    if is_decided(s, k, address) {
        Body::Nothing
    } else {
        body_of(s.part, k, address)
    }
}

// The data clocks among all that there are.
pub fn data_clocks(b: Body, w: Wires, all: Clocks) -> Clocks
    ensures { result ≡ data_of b w all }
{
    match b {
        Body::Nothing => Clocks::none(),
        Body::FixedRead(size) | Body::FixedWrite(size) => clocks_within(size, w, all),
        Body::AnyRead | Body::AnyWrite => all,
    }
}
