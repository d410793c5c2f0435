// The device: a transaction, whole or fed in chunks, and a power cycle, each behind its checks. Nothing is asked of the caller.
//
// A refusal is an outcome like any other, with the record as it was, and no error of the call. So each of the five says at its checks
// what it answers: with `?` each would be two functions, one that gives a Result and one that makes an outcome of it.
//
// Record, memory, area, samples and output are lent each for itself, as the C interface lends them; why memory and area are not one
// struct stands at `machine_bytes::put_at`.
#![tactic(auto)]

ghost use Rattle.std.specs.Prelude.{◌≡◌, [], length, replicate};
ghost use Rattle.paper.specs.Transaction.{transact_of, power_of};
ghost use Rattle.machine_chunks.specs.Chunks.{open_of, feed_of, close_of};
ghost use Rattle.contract_words.specs.Words.{lends, world_of};

use parts::{Family, Part};
use record::{Answer, Device, Outcome, unclocked};

// A memory that comes back from a power cycle all 00h.
pub fn wipe(memory: &mut [u8])
    ensures { memory.new ≡ replicate (length memory.old) 0 }
{
    memory.fill(0);
}

// A power cycle. The area is only looked at.
pub fn power_cycle(d: Device, memory: &mut [u8], area: &[u8]) -> Outcome
    ensures { world_of result memory.new area.now [] ≡ power_of d (lends memory.old area.now) }
{
    let meanwhile = d.underway.selected;
    if let Err(v) = device_checks::bare(d, memory, area, meanwhile) {
        return unclocked(v, d);
    }
    match Part::of(d.make.part).family() {
        Family::Mram => {}
        Family::Psram => wipe(memory),
    }
    unclocked(Answer::Done, d.powered())
}

// A transaction: the clock samples of one stretch of chip select, and what they leave.
pub fn transact(
    d: Device,
    memory: &mut [u8],
    area: &mut [u8],
    samples: &[u8],
    output: &mut [u8],
) -> Outcome
    ensures { world_of result memory.new area.new output.new ≡ transact_of d (lends memory.old area.old) samples.now output.old }
{
    let meanwhile = d.underway.selected;
    let fits = device_checks::has_room(samples, output);
    if let Err(v) = device_checks::clocked(d, memory, area, samples, fits, meanwhile) {
        return unclocked(v, d);
    }
    machine_stretches::clocked(d, memory, area, samples, output)
}

// Select goes low: a transaction is open, and no clock has come. Memory and area are only looked at.
pub fn open(d: Device, memory: &[u8], area: &[u8]) -> Outcome
    ensures { world_of result memory.now area.now [] ≡ open_of d (lends memory.now area.now) }
{
    let twice = d.underway.selected;
    if let Err(v) = device_checks::bare(d, memory, area, twice) {
        return unclocked(v, d);
    }
    unclocked(Answer::Done, d.opened())
}

// The next clocks of the open transaction.
pub fn feed(
    d: Device,
    memory: &mut [u8],
    area: &mut [u8],
    samples: &[u8],
    output: &mut [u8],
) -> Outcome
    ensures { world_of result memory.new area.new output.new ≡ feed_of d (lends memory.old area.old) samples.now output.old }
{
    let u = d.underway;
    let fits = device_checks::has_room_after(u, samples, output);
    if let Err(v) = device_checks::clocked(d, memory, area, samples, fits, !u.selected) {
        return unclocked(v, d);
    }
    let e = machine_chunks::go_on(d, memory, area, samples, output);
    unclocked(Answer::Done, e)
}

// Select goes high: the open transaction is answered. What it stored came with its clocks, so memory and area are only looked at.
pub fn close(d: Device, memory: &[u8], area: &[u8]) -> Outcome
    ensures { world_of result memory.now area.now [] ≡ close_of d (lends memory.now area.now) }
{
    let u = d.underway;
    if let Err(v) = device_checks::bare(d, memory, area, !u.selected) {
        return unclocked(v, d);
    }
    let p = machine_chunks::resume(d.setting(), u);
    machine_end::finish(d.closed(), p)
}
