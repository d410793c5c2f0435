// An open transaction, taken up where its clocks have come to and put down again: the record holds its facts, and the machine
// goes on from what follows from them.
#![tactic(auto)]

ghost use Rattle.std.specs.Prelude.{◌≡◌, ◌+◌, ◌≤◌, length, fold};
ghost use Rattle.wires.specs.Bits.{shift_of};
ghost use Rattle.counts.specs.Counts.{total};
ghost use Rattle.paper.specs.Reading.{first};
ghost use Rattle.contract_words.specs.Words.{lends};
ghost use Rattle.machine_chunks.specs.Chunks.{phase_by, resume_of, opcode_after, paused_of, Continued};

use counts::Counts;
use kinds::Kind;
use progress::{Phase, Progress, Tally};
use record::{Device, Setting, Underway};
use units::{Clocks, Wires};

// The phase that so many clocks have come to. Setting, kind and address are parameters of their own, as `phase_by` of the definitions
// takes them and as `plan_in_force` does.
#[tactic(auto, using(units::specs::Compared::gt_is), unfolding(crate::specs::Chunks::phase_by))]
fn phase_by(s: Setting, k: Kind, address: u32, c: Counts) -> Phase
    requires { s.n ≤ 24 }
    ensures { result ≡ phase_by s k address c }
{
    if plan_in_force::command_clocks(s) > c.command {
        return Phase::Command;
    }
    if plan_in_force::address_clocks(s, k) > c.address {
        return Phase::Address;
    }
    if plan_in_force::wait_clocks(s, k, address) > c.wait {
        return Phase::Wait;
    }
    let body = plan_in_force::body_for(s, k, address);
    if machine_phases::is_full(body, plan_in_force::wires_for(s, k), c.body) {
        Phase::Rest
    } else {
        Phase::Data
    }
}

// Where the machine stands in the open transaction.
#[tactic(auto, unfolding(crate::specs::Chunks::resume_of))]
pub fn resume(s: Setting, u: Underway) -> Progress
    requires { s.n ≤ 24 }
    ensures { result ≡ resume_of s u }
{
    let kind = underway::kind_at(s, u);
    let counts = underway::counts_at(s, u);
    let value = u.value; // an array goes into a struct by a variable alone
    Progress {
        phase: phase_by(s, kind, u.address, counts),
        kind,
        address: u.address,
        number: u.number,
        tally: Tally { counts, value },
    }
}

// The number that the first samples, up to so many, spell after one that is gathered already.
fn gathered(w: Wires, number: u32, samples: &[u8], most: Clocks) -> u32
    ensures { result ≡ fold (shift_of w) number (first most samples.now) }
{
    samples
        .iter()
        .take(most.in_clocks())
        .fold(number, |n, x| wires::shift_in(n, *x, w))
}

// The opcode after a chunk: the command may come whole in it. It is the low eight bits of what is gathered, which no `From` cuts off.
#[tactic(auto, using(units::specs::Compared::lt_is, units::specs::Compared::le_is), unfolding(crate::specs::Chunks::opcode_after))]
fn opcode_after(s: Setting, u: Underway, samples: &[u8]) -> u8
    ensures { result ≡ opcode_after s u samples.now }
{
    let command = plan_in_force::command_clocks(s);
    let missing = command.past(u.clocks);
    if u.clocks < command && missing <= Clocks::of_samples(samples) {
        (gathered(s.wires, u.number, samples, missing) % 256) as u8
    } else {
        u.opcode
    }
}

// What the record keeps of where the machine stands.
fn pause(opcode: u8, p: Progress) -> Underway
    requires { (total p.tally.counts).0 ≤ 65535 }
    ensures { result ≡ paused_of opcode p }
{
    let value = p.tally.value; // by a variable, as above
    Underway {
        selected: true,
        clocks: p.tally.counts.total(),
        opcode,
        address: p.address,
        number: p.number,
        value,
    }
}

// A chunk that has passed its checks: the record with the open transaction so many clocks further.
pub fn go_on(
    d: Device,
    memory: &mut [u8],
    area: &mut [u8],
    samples: &[u8],
    output: &mut [u8],
) -> Device
    requires { (d.make.n ≤ 24) × ((d.underway.clocks.0 + length samples.now ≤ 65535) × (length samples.now ≤ length output.old)) }
    ensures { Continued d (lends memory.old area.old) samples.now output.old result (lends memory.new area.new) output.new }
{
    let s = d.setting();
    let u = d.underway;
    let p = resume(s, u);
    let opcode = opcode_after(s, u, samples);
    let q = machine_run::feed(d.closed(), p, memory, area, samples, output);
    d.with_underway(pause(opcode, q))
}
