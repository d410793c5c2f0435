// The checks before a call of the device, in their order: for each of the two lists a function that passes, or refuses with the
// answer of the first check that fails. Nothing is asked of the caller. Memory and area are lent as two slices; why, stands at
// `machine_bytes::put_at`.
#![tactic(auto)]

ghost use Rattle.std.specs.Prelude.{◌≡◌, [], ◌∷◌, ◌≤◌, true, not, ltb, IfErr};
ghost use Rattle.std.specs.List.{list_all};
ghost use Rattle.units.specs.Units.{plus, at_most, longest};
ghost use Rattle.basis.specs.Decisions.{first_of};
ghost use Rattle.record.specs.declared.answers.Answer.TheVariants.{Done};
ghost use Rattle.record.specs.Answers.{refuses};
ghost use Rattle.paper.specs.Transaction.{sized_for, room_for, so_far, room_after, sampled, last_checks, clock_checks, bare_checks};
ghost use Rattle.contract_words.specs.Words.{lends};
ghost use Rattle.device_checks.specs.Verdict.{told};

use parts::Part;
use record::{Answer, Device, Underway};
use units::{Bytes, Clocks};

// How many levels four wires have.
const LEVELS: u8 = 16;

// Whether part and n are in range, and what is lent has the sizes that they give.
#[tactic(auto, using(crate::specs::Laws::offered_reach), unfolding(paper::specs::Transaction::sized_for))]
fn is_sized(d: Device, memory: &[u8], area: &[u8]) -> bool
    ensures { result ≡ sized_for d (lends memory.now area.now) }
{
    let n = d.make.n;
    let Ok(part) = Part::try_from(d.make.part) else {
        return false;
    };
    parts::is_offered(part, n)
        && Bytes::of_store(memory) == places::memory_size(n)
        && Bytes::of_store(area) == part.area()
}

// Whether the clocks are few enough, and the output has room for what they drive.
#[tactic(auto, using(units::specs::Compared::le_is), unfolding(paper::specs::Transaction::room_for))]
pub fn has_room(samples: &[u8], output: &[u8]) -> bool
    ensures { result ≡ room_for samples.now output.now }
{
    let clocks = Clocks::of_samples(samples);
    clocks <= Clocks::longest() && clocks <= Clocks::of_samples(output)
}

// The clocks of the chunks so far, where a transaction is open.
fn so_far(u: Underway) -> Clocks
    ensures { result ≡ so_far u }
{
    if u.selected { u.clocks } else { Clocks::none() }
}

// Whether so many clocks more are few enough.
fn is_few(before: Clocks, more: Clocks) -> bool
    ensures { result ≡ at_most (plus before more) longest }
{
    let most = Clocks::longest();
    before <= most && more <= most.past(before)
}

// Whether the clocks of a chunk, with those of the chunks before it, are few enough, and the output has room for what it drives.
#[tactic(auto, using(units::specs::Compared::le_is), unfolding(paper::specs::Transaction::room_after))]
pub fn has_room_after(u: Underway, samples: &[u8], output: &[u8]) -> bool
    ensures { result ≡ room_after u samples.now output.now }
{
    let clocks = Clocks::of_samples(samples);
    is_few(so_far(u), clocks) && clocks <= Clocks::of_samples(output)
}

// Whether every sample is a level of four wires.
fn is_sampled(samples: &[u8]) -> bool
    ensures { result ≡ list_all (λ x. ltb x 16) samples.now }
{
    samples.iter().all(|x| *x < LEVELS)
}

// A check, and the answer with which it refuses where it fails. The error is an `Answer`, and each contract here says that it refuses
// (`refused`): an enum of the refusals alone would be turned into an `Answer` again by every call of the device (`unclocked`).
fn check(passed: bool, v: Answer) -> Result<(), Answer>
    requires { refuses v ≡ true }
    ensures verdict { told result ≡ first_of Done ((not passed, v) ∷ []) }
    ensures refused { IfErr result (λ v. refuses v ≡ true) }
{
    if passed { Ok(()) } else { Err(v) }
}

// The checks that each list ends with: the state, and then whose turn it is. An untimely call is out of turn.
fn last(d: Device, untimely: bool) -> Result<(), Answer>
    requires { d.make.n ≤ 24 }
    ensures verdict { told result ≡ first_of Done (last_checks d untimely) }
    ensures refused { IfErr result (λ v. refuses v ≡ true) }
{
    check(underway::valid(d), Answer::State)?;
    check(!untimely, Answer::Turn)
}

// The checks of a call without clocks.
#[tactic(auto, using(crate::specs::Laws::sized_reach))]
pub fn bare(d: Device, memory: &[u8], area: &[u8], untimely: bool) -> Result<(), Answer>
    ensures verdict { told result ≡ first_of Done (bare_checks d (lends memory.now area.now) untimely) }
    ensures refused { IfErr result (λ v. refuses v ≡ true) }
{
    check(is_sized(d, memory, area), Answer::Size)?;
    last(d, untimely)
}

// And of one with clocks. `fits` tells that they are few enough and have room.
#[tactic(auto, using(crate::specs::Laws::sized_reach, crate::specs::Laws::sampled_all))]
pub fn clocked(
    d: Device,
    memory: &[u8],
    area: &[u8],
    samples: &[u8],
    fits: bool,
    untimely: bool,
) -> Result<(), Answer>
    ensures verdict { told result ≡ first_of Done (clock_checks d (lends memory.now area.now) samples.now fits untimely) }
    ensures refused { IfErr result (λ v. refuses v ≡ true) }
{
    check(is_sized(d, memory, area) && fits, Answer::Size)?;
    check(is_sampled(samples), Answer::Sample)?;
    last(d, untimely)
}
