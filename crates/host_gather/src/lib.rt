// Bytes from what the device drives: which samples it never drives, how many bytes the others make, and the bytes.
#![tactic(auto)]

ghost use Rattle.std.specs.Prelude.{◌≡◌, false, MatchResult};
ghost use Rattle.record.specs.declared.answers.Answer.TheVariants.{Done};
ghost use Rattle.record.specs.Answers.{is_done};
ghost use Rattle.buffers.specs.Page.{page, puts_of};
ghost use Rattle.paper.specs.Building.{many_bytes};
ghost use Rattle.paper.specs.Collecting.{is_wires, strange, collected};
ghost use Rattle.host_gather.specs.Refusals.{refusal_of, driven_in};

use buffers::Page;
use record::{Answer, mode_wires};
use units::{Bytes, Clocks, Wires, clocks_to_bytes, unfinished};
use wires::{is_driven, seen, shift_in};

// One, two or four wires. Whether a number is one and which wires it means are two answers, as the paper has them (`is_wires`,
// `mode_wires`), and `mode_wires` has one for any number.
fn is_wires(n: u8) -> bool
    ensures { result ≡ is_wires n }
{
    matches!(n, 1 | 2 | 4)
}

// Whether some sample is neither silence nor a level of these wires.
fn is_strange(w: Wires, driven: &[u8]) -> bool
    ensures { result ≡ strange w driven.now }
{
    driven.iter().any(|x| *x != 0 && !is_driven(*x, w))
}

// The clocks in which it drives: all of them, less the silent ones. These are taken off as they come: a `filter` that is counted looks for the
// next one each time, and a gathering takes up to twice as long where most clocks are silent.
fn driven_clocks(driven: &[u8]) -> Clocks
    ensures { result ≡ driven_in driven.now }
{
    let mut count = driven.len();
    for x in driven {
        if *x == 0 {
            count -= 1;
        }
    }
    Clocks::stated(count)
}

// The whole bytes that they make.
fn bytes_driven(w: Wires, driven: &[u8]) -> Bytes
    ensures { result ≡ many_bytes (collected w driven.now) }
{
    clocks_to_bytes(driven_clocks(driven), w)
}

// The first row that holds.
pub fn refusal(n: u8, driven: &[u8], bytes: &[u8]) -> Result<(), Answer>
    ensures { MatchResult result (λ u. refusal_of n driven.now bytes.now ≡ Done) (λ v. (v ≡ refusal_of n driven.now bytes.now) × (is_done v ≡ false)) }
{
    if !is_wires(n) {
        return Err(Answer::Unknown);
    }
    let w = mode_wires(n);
    if is_strange(w, driven) {
        return Err(Answer::Sample);
    }
    if Bytes::of_store(bytes) < bytes_driven(w, driven) {
        return Err(Answer::Size);
    }
    Ok(())
}

// The bytes, from the front of the buffer: the bits of each driven clock go below those before them, and the last
// clock of a byte brings it. The clocks of a byte are counted and not cut off in chunks: silent clocks may stand between them.
pub fn put_collected(w: Wires, driven: &[u8], bytes: &mut [u8]) -> Bytes
    ensures { page result.0 bytes.new ≡ puts_of (collected w driven.now) (page 0 bytes.old) }
{
    let mut page = Page::begun(bytes, 0);
    let mut number: u32 = 0;
    let mut had = Clocks::none();
    for x in driven {
        if *x == 0 {
            continue;
        }
        number = shift_in(number, seen(*x, w), w);
        had = unfinished(had.next(), w);
        if had == Clocks::none() {
            // The low eight bits; a conversion that may fail would have a case that never comes.
            page.put((number % 256) as u8);
            number = 0;
        }
    }
    Bytes::stated(page.place())
}
