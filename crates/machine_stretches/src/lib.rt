// A transaction's samples parted by phase: each phase's clocks are handed on as a part of the slices, and the
// data phase is the part in the middle.
#![tactic(auto)]

ghost use Rattle.std.specs.Prelude.{◌≡◌, ◌≤◌};
ghost use Rattle.progress.specs.Progress.{begin_of};
ghost use Rattle.contract_words.specs.Words.{lends, run_as, world_of};
ghost use Rattle.paper.specs.Transaction.{clocked_of};
ghost use Rattle.units.specs.Units.{clocks};
ghost use Rattle.machine_stretches.specs.Stretches.{reach_of, head_of, data_clocks, Passed, Advancing, Advanced, Come, Ahead};

use progress::Progress;
use record::{Device, Outcome};
use units::Clocks;

// Where so many clocks more come to, or the end of all that there are.
#[tactic(auto, unfolding(crate::specs::Stretches::reach_of))]
fn reach(from: Clocks, c: Clocks, all: Clocks) -> Clocks
    requires { (from.0 ≤ all.0) × (all.0 ≤ 65535) }
    ensures { result ≡ clocks (reach_of from c all.0) }
{
    from + c.up_to(all - from)
}

// The next clocks of the samples, so many or as many as are left, fed as a part of the slices.
fn advance(
    d: Device,
    p: Progress,
    memory: &mut [u8],
    area: &mut [u8],
    samples: &[u8],
    output: &mut [u8],
    c: Clocks,
) -> Progress
    requires { Advancing d p samples.now output.old }
    ensures { Advanced d (run_as p memory.old area.old) samples.now output.old c (run_as result memory.new area.new) output.new }
{
    let from = p.tally.counts.total();
    let till = reach(from, c, Clocks::of_samples(samples));
    let a = from.in_clocks();
    let e = till.in_clocks();
    machine_run::feed(d, p, memory, area, &samples[a..e], &mut output[a..e])
}

// The clocks before the data: command, address and wait.
fn before_data(
    d: Device,
    memory: &mut [u8],
    area: &mut [u8],
    samples: &[u8],
    output: &mut [u8],
) -> Progress
    requires { Passed d samples.now output.old }
    ensures { Come d (run_as begin_of memory.old area.old) samples.now output.old (head_of d samples.now) (run_as result memory.new area.new) output.new }
{
    let s = d.setting();
    let p = Progress::begin();
    let command = plan_in_force::command_clocks(s);
    let q = advance(d, p, memory, area, samples, output, command);
    let address = plan_in_force::address_clocks(s, q.kind);
    let r = advance(d, q, memory, area, samples, output, address);
    let wait = plan_in_force::wait_clocks(s, q.kind, r.address);
    advance(d, r, memory, area, samples, output, wait)
}

// The data phase, which is the middle of the samples: its clocks are handed on as one part (D69).
fn over_data(
    d: Device,
    p: Progress,
    memory: &mut [u8],
    area: &mut [u8],
    samples: &[u8],
    output: &mut [u8],
) -> Progress
    requires { Ahead d p samples.now output.old }
    ensures { Advanced d (run_as p memory.old area.old) samples.now output.old (data_clocks d samples.now) (run_as result memory.new area.new) output.new }
{
    let s = d.setting();
    let body = plan_in_force::body_for(s, p.kind, p.address);
    let w = plan_in_force::wires_for(s, p.kind);
    let data = plan_in_force::data_clocks(body, w, Clocks::of_samples(samples));
    advance(d, p, memory, area, samples, output, data)
}

// A transaction that has passed its checks: the clocks before the data, the data in the middle, and the rest.
pub fn clocked(
    d: Device,
    memory: &mut [u8],
    area: &mut [u8],
    samples: &[u8],
    output: &mut [u8],
) -> Outcome
    requires { Passed d samples.now output.old }
    ensures { world_of result memory.new area.new output.new ≡ clocked_of d (lends memory.old area.old) samples.now output.old }
{
    let p = before_data(d, memory, area, samples, output);
    let q = over_data(d, p, memory, area, samples, output);
    let all = Clocks::of_samples(samples);
    let r = advance(d, q, memory, area, samples, output, all);
    machine_end::finish(d, r)
}
