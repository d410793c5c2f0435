// The answer of a transaction, judged at its end by the papers' table, and the record that it leaves. That the counts are no more than
// 65,535 is asked for and not a type's invariant, as in `machine_phases`.
#![tactic(auto)]

ghost use Rattle.std.specs.Prelude.{◌≡◌, ◌≤◌};
ghost use Rattle.basis.specs.Decisions.{first_of};
ghost use Rattle.counts.specs.Counts.{total};
ghost use Rattle.record.specs.declared.answers.Answer.TheVariants.{Done};
ghost use Rattle.paper.specs.Table.{data_rows, answer_by};
ghost use Rattle.paper.specs.Storing.{all_shut};
ghost use Rattle.paper.specs.Answers.{short_data, long_rest, resetting, unarmed, reserved_for, shut_data, table_of};
ghost use Rattle.machine_end.specs.Finish.{facts_in, outcome_of};

use changes::latch_missing;
use commands::plans::Body;
use kinds::{Control, Kind, Register, Target};
use parts::Part;
use progress::Progress;
use record::{Aim, Answer, Device, Outcome, Setting};
use state_check::reserved;
use units::{Bytes, Clocks, Wires};

// 4 for want of data: a burst has brought no byte yet, a register write not all of its own.
#[tactic(auto, using(units::specs::Compared::lt_is))]
fn is_short(b: Body, w: Wires, t: Clocks) -> bool
    ensures { result ≡ short_data b w t }
{
    match b {
        Body::FixedWrite(m) => units::clocks_to_bytes(t, w) < m,
        Body::AnyWrite => units::clocks_to_bytes(t, w) < Bytes::one(),
        Body::Nothing | Body::FixedRead(_) | Body::AnyRead => false,
    }
}

// A clock too many.
#[tactic(auto, using(units::specs::Compared::lt_is))]
fn is_long(b: Body, t: Clocks) -> bool
    ensures { result ≡ long_rest b t }
{
    matches!(b, Body::Nothing | Body::FixedWrite(_)) && Clocks::none() < t
}

// Whether a command resets.
fn is_reset(k: Kind) -> bool
    ensures { result ≡ resetting k }
{
    matches!(k, Kind::Plain(Control::Reset))
}

// 12: the chip is to reset and is not armed.
#[tactic(auto, unfolding(paper::specs::Answers::unarmed))]
fn is_unarmed(armed: bool, k: Kind) -> bool
    ensures { result ≡ unarmed armed k }
{
    is_reset(k) && !armed
}

// 10: the register cannot have what is written.
fn is_reserved(part: Part, k: Kind, value: [u8; 8]) -> bool
    ensures { result ≡ reserved_for part k value }
{
    match k {
        Kind::Write(Target::Register(r)) => reserved(part, r, value),
        Kind::Write(Target::Mode) => reserved(part, Register::ModeRegister, value),
        _ => false,
    }
}

// Whether all of the first `m` bytes of a write lie at protected places.
#[tactic(auto, unfolding(paper::specs::Storing::all_shut))]
fn is_all_shut(a: Aim, m: Bytes) -> bool
    requires { (a.setting.n ≤ 24) × (m.0 ≤ 65535) }
    ensures { result ≡ all_shut a m }
{
    machine_bytes::shut_among(a, m) == m
}

// 9: a burst of which no byte was open.
fn is_shut(b: Body, a: Aim, m: Bytes) -> bool
    requires { (a.setting.n ≤ 24) × (m.0 ≤ 65535) }
    ensures { result ≡ shut_data b a m }
{
    matches!(b, Body::AnyWrite) && is_all_shut(a, m)
}

// The rows of the table that look at the data. An `Answer` and no `Result`, here and in `judge_in`: `Done` is one of the answers of a
// transaction (`answer_by`), and `finish` would make it of an `Ok` again.
#[tactic(auto, using(units::specs::Compared::lt_is))]
fn judge_data(s: Setting, armed: bool, latch: bool, p: Progress) -> Answer
    requires { (s.n ≤ 24) × ((total p.tally.counts).0 ≤ 65535) }
    ensures { result ≡ first_of Done (data_rows (table_of s armed latch (facts_in p))) }
{
    let k = p.kind;
    let counts = p.tally.counts;
    let w = plan_in_force::wires_for(s, k);
    let b = plan_in_force::body_for(s, k, p.address);
    if is_short(b, w, counts.body) {
        return Answer::Short;
    }
    if is_long(b, counts.rest) {
        return Answer::Long;
    }
    if is_unarmed(armed, k) {
        return Answer::Unarmed;
    }
    if latch_missing(s.part.family(), s.registers.cr4, latch, k) {
        return Answer::Latch;
    }
    if is_reserved(s.part, k, p.tally.value) {
        return Answer::Reserved;
    }
    let a = Aim {
        setting: s,
        kind: k,
        address: p.address,
    };
    if is_shut(b, a, units::clocks_to_bytes(counts.body, w)) {
        return Answer::Protected;
    }
    Answer::Done
}

// The rows that are decided before any data, and then those.
#[tactic(auto, using(units::specs::Compared::lt_is))]
fn judge_in(s: Setting, armed: bool, latch: bool, p: Progress) -> Answer
    requires { (s.n ≤ 24) × ((total p.tally.counts).0 ≤ 65535) }
    ensures { result ≡ answer_by (table_of s armed latch (facts_in p)) }
{
    let k = p.kind;
    let counts = p.tally.counts;
    if counts.command < plan_in_force::command_clocks(s) {
        return Answer::Short;
    }
    if plan_in_force::asleep_for(s, k) {
        return Answer::Asleep;
    }
    if kinds::is_unknown(k) {
        return Answer::Unknown;
    }
    if counts.address < plan_in_force::address_clocks(s, k) {
        return Answer::Short;
    }
    if plan_in_force::refused_at(s, k, p.address) {
        return Answer::Address;
    }
    judge_data(s, armed, latch, p)
}

// The end of a transaction: its answer, its counts, and the record that it leaves.
#[tactic(auto, unfolding(crate::specs::Finish::outcome_of, paper::specs::Answers::judge))]
pub fn finish(d: Device, p: Progress) -> Outcome
    requires { (d.make.n ≤ 24) × ((total p.tally.counts).0 ≤ 65535) }
    ensures { result ≡ outcome_of d p }
{
    let answer = judge_in(d.setting(), d.volatile.armed, d.volatile.latch, p);
    Outcome {
        answer,
        counts: p.tally.counts,
        device: changes::settled(d, p.kind, p.tally.value, answer),
    }
}
