// What the facts of an open transaction tell, and whether some clocks reach them: a handful of comparisons, however many
// clocks have come.
//
// Setting and open transaction are two parameters, as the definitions of `Rattle.paper.specs.Underway` take them: the setting is
// worked out from the record in `valid`, `machine_chunks::go_on` and `device::close`, and a struct of the two would be taken apart in each function.
#![tactic(auto)]

ghost use Rattle.std.specs.Prelude.{◌≡◌, ◌≤◌};
ghost use Rattle.units.specs.Units.{clocks};
ghost use Rattle.paper.specs.Underway.{kind_at, counts_at, spelling, begun_in, kept_in, number_reached, reached, factless, underway_valid, valid_of};

use commands::plans::{Body, is_write};
use counts::Counts;
use kinds::Kind;
use opcodes::kind_of;
use plan_in_force::{
    address_clocks, body_for, command_clocks, data_clocks, wait_clocks, wires_for,
};
use record::{Device, Setting, Underway};
use state_check::all_zero;
use units::{Bytes, Clocks};
use wires::fits;

// The kind of the command, once it is whole.
#[tactic(auto, using(units::specs::Compared::le_is), unfolding(paper::specs::Underway::kind_at))]
pub fn kind_at(s: Setting, u: Underway) -> Kind
    ensures { result ≡ kind_at s u }
{
    if command_clocks(s) <= u.clocks {
        kind_of(s.part.family(), s.wires, u.opcode)
    } else {
        Kind::Unknown
    }
}

// The clocks so far, by phase.
#[tactic(auto, unfolding(paper::specs::Underway::counts_at))]
pub fn counts_at(s: Setting, u: Underway) -> Counts
    requires { s.n ≤ 24 }
    ensures { result ≡ counts_at s u }
{
    let k = kind_at(s, u);
    let command = command_clocks(s);
    let address = address_clocks(s, k);
    let wait = wait_clocks(s, k, u.address);
    let past_command = u.clocks.past(command);
    let past_address = past_command.past(address);
    let past_wait = past_address.past(wait);
    let data = data_clocks(body_for(s, k, u.address), wires_for(s, k), past_wait);
    Counts {
        command: u.clocks.up_to(command),
        address: past_command.up_to(address),
        wait: past_address.up_to(wait),
        body: data,
        rest: past_wait.past(data),
    }
}

// The clocks that spell a number: none while some of them are missing.
#[tactic(auto, using(units::specs::Compared::le_is))]
fn spelling_of(all: Clocks, c: Clocks) -> Clocks
    ensures { result ≡ spelling all c }
{
    if all <= c { c } else { Clocks::none() }
}

// Of the data clocks those that have begun a byte of a write.
fn begun_in(b: Body, c: Clocks) -> Clocks
    ensures { result ≡ begun_in b c }
{
    if is_write(b) { c } else { Clocks::none() }
}

// The whole bytes that are kept until the end.
fn kept_in(b: Body, m: Bytes) -> Bytes
    ensures { result ≡ kept_in b m }
{
    match b {
        Body::FixedWrite(_) => m,
        _ => Bytes::none(),
    }
}

// Whether the number fits the clocks that have come of what is not whole yet.
#[tactic(auto, using(units::specs::Compared::gt_is), unfolding(paper::specs::Underway::number_reached))]
fn is_number_reached(s: Setting, u: Underway) -> bool
    requires { s.n ≤ 24 }
    ensures { result ≡ number_reached s u }
{
    let k = kind_at(s, u);
    let c = counts_at(s, u);
    if command_clocks(s) > c.command {
        return fits(u.number, c.command, s.wires);
    }
    let w = wires_for(s, k);
    if address_clocks(s, k) > c.address {
        return fits(u.number, c.address, w);
    }
    let begun = begun_in(body_for(s, k, u.address), units::unfinished(c.body, w));
    fits(u.number, begun, w)
}

// Whether no fact has bits that have not come.
#[tactic(auto, using(units::specs::Compared::le_is), unfolding(paper::specs::Underway::reached))]
fn is_reached(s: Setting, u: Underway) -> bool
    requires { s.n ≤ 24 }
    ensures { result ≡ reached s u }
{
    let k = kind_at(s, u);
    let c = counts_at(s, u);
    let w = wires_for(s, k);
    let opcode = spelling_of(command_clocks(s), c.command);
    let address = spelling_of(address_clocks(s, k), c.address);
    let kept = kept_in(body_for(s, k, u.address), units::clocks_to_bytes(c.body, w));
    u.clocks <= Clocks::longest()
        && fits(u32::from(u.opcode), opcode, s.wires)
        && fits(u.address, address, w)
        && is_number_reached(s, u)
        && all_zero(u.value, kept.in_bytes())
}

// Whether there are no facts.
#[tactic(auto, using(units::specs::Compared::le_is), unfolding(paper::specs::Underway::factless))]
fn is_factless(u: Underway) -> bool
    ensures { result ≡ factless u }
{
    u.clocks <= Clocks::none()
        && u.opcode == 0
        && u.address == 0
        && u.number == 0
        && all_zero(u.value, 0)
}

// Whether the open transaction is one that some clocks reach or, with none open, there are no facts.
#[tactic(auto, unfolding(paper::specs::Underway::underway_valid))]
fn is_underway_valid(s: Setting, u: Underway) -> bool
    requires { s.n ≤ 24 }
    ensures { result ≡ underway_valid s u }
{
    if u.selected {
        is_reached(s, u)
    } else {
        is_factless(u)
    }
}

// The state check. Whoever asks has checked the size.
#[tactic(auto, unfolding(paper::specs::Underway::valid_of))]
pub fn valid(d: Device) -> bool
    requires { d.make.n ≤ 24 }
    ensures { result ≡ valid_of d }
{
    state_check::in_range(d) && is_underway_valid(d.setting(), d.underway)
}
