// The C host's calls. What C lends comes as a pointer and a length; a length that is not due is answered, and nothing
// behind the pointer is then read or written but the counts, which are 0. `include/tondravik.h` says what C must ensure.
// Names and signatures are C's, so that calls of one shape stand each for itself; what they share is in `image_calls`, `tell` and `fill`.
#![tactic(auto)]

ghost use Rattle.std.specs.Prelude.{◌≡◌, []};
ghost use Rattle.units.specs.Units.{bytes};
ghost use Rattle.record.specs.Answers.{answer_number};
ghost use Rattle.words.specs.Words.{number_over};
ghost use Rattle.contract_words.specs.Words.{lends};
ghost use Rattle.cabi.specs.Calls.{answer_in, numbered_as, numbered, call_as, unroomed_number, fresh_m_from, fresh_m32_from, fresh_p_from, transact_from, power_from, open_from, feed_from, close_from};
ghost use Rattle.cabi.specs.Fills.{filled_as, order_in, build_in, gather_in};

use host_order::Order;
use image_calls::Reply;
use image_check::is_accepted;
use record::Answer;
use units::Bytes;
use words::{COUNTS, NUMBER, put_counts, put_number};

// The number of what a call is answered that leaves no more than its buffer.
fn number_of(r: Result<(), Answer>) -> u8
    ensures { result ≡ answer_number (answer_in r) }
{
    u8::from(r.err().unwrap_or(Answer::Done))
}

// A fresh chip of part M.
#[unsafe(no_mangle)]
pub extern "C" fn tondravik_fresh_m(n: u8, device: &[u8], unique: &[u8], image: &mut [u8]) -> u8
    ensures { numbered_as result image.new ≡ fresh_m_from n device.now unique.now image.old }
{
    number_of(image_calls::fresh_m(n, device, unique, image))
}

// A fresh chip of part M32.
#[unsafe(no_mangle)]
pub extern "C" fn tondravik_fresh_m32(n: u8, device: &[u8], unique: &[u8], image: &mut [u8]) -> u8
    ensures { numbered_as result image.new ≡ fresh_m32_from n device.now unique.now image.old }
{
    number_of(image_calls::fresh_m32(n, device, unique, image))
}

// A fresh chip of part P.
#[unsafe(no_mangle)]
pub extern "C" fn tondravik_fresh_p(n: u8, device: &[u8], image: &mut [u8]) -> u8
    ensures { numbered_as result image.new ≡ fresh_p_from n device.now image.old }
{
    number_of(image_calls::fresh_p(n, device, image))
}

// The answer of a call that has not the words for its counts: 3 comes first here too.
#[tactic(auto, unfolding(crate::specs::Calls::unroomed_number))]
fn unroomed(image: &[u8]) -> u8
    ensures { result ≡ unroomed_number image.now }
{
    if is_accepted(image) {
        u8::from(Answer::Size)
    } else {
        u8::from(Answer::State)
    }
}

// A reply in words: the counts, where they have room, and the answer.
fn tell(r: Reply, counts: &mut [usize]) -> u8
    ensures { call_as result [] [] [] [] counts.new ≡ numbered r counts.old }
{
    put_counts(r.counts, counts);
    u8::from(r.answer)
}

// A transaction.
#[unsafe(no_mangle)]
pub extern "C" fn tondravik_transact(
    image: &mut [u8],
    memory: &mut [u8],
    area: &mut [u8],
    samples: &[u8],
    output: &mut [u8],
    counts: &mut [usize],
) -> u8
    ensures { call_as result image.new memory.new area.new output.new counts.new ≡ transact_from image.old (lends memory.old area.old) samples.now output.old counts.old }
{
    if counts.len() != COUNTS {
        return unroomed(image);
    }
    tell(
        image_calls::transact(image, memory, area, samples, output),
        counts,
    )
}

// A power cycle. No clock is counted, and no words are lent for counts.
#[unsafe(no_mangle)]
pub extern "C" fn tondravik_power_cycle(image: &mut [u8], memory: &mut [u8], area: &[u8]) -> u8
    ensures { call_as result image.new memory.new area.now [] [] ≡ power_from image.old (lends memory.old area.now) }
{
    u8::from(image_calls::power_cycle(image, memory, area).answer)
}

// Select goes low. No clock is counted.
#[unsafe(no_mangle)]
pub extern "C" fn tondravik_open(image: &mut [u8], memory: &[u8], area: &[u8]) -> u8
    ensures { call_as result image.new memory.now area.now [] [] ≡ open_from image.old (lends memory.now area.now) }
{
    u8::from(image_calls::open(image, memory, area).answer)
}

// The next clocks of the open transaction. They are counted when it is closed.
#[unsafe(no_mangle)]
pub extern "C" fn tondravik_feed(
    image: &mut [u8],
    memory: &mut [u8],
    area: &mut [u8],
    samples: &[u8],
    output: &mut [u8],
) -> u8
    ensures { call_as result image.new memory.new area.new output.new [] ≡ feed_from image.old (lends memory.old area.old) samples.now output.old }
{
    u8::from(image_calls::feed(image, memory, area, samples, output).answer)
}

// Select goes high: the answer and the counts of all clocks since select went low.
#[unsafe(no_mangle)]
pub extern "C" fn tondravik_close(
    image: &mut [u8],
    memory: &[u8],
    area: &[u8],
    counts: &mut [usize],
) -> u8
    ensures { call_as result image.new memory.now area.now [] counts.new ≡ close_from image.old (lends memory.now area.now) counts.old }
{
    if counts.len() != COUNTS {
        return unroomed(image);
    }
    tell(image_calls::close(image, memory, area), counts)
}

// What the host half tells: how much was put into the buffer, in the lent word, and the answer. Each call takes its result apart by
// itself: one counts in clocks, the other in bytes, and a `map` to a plain number before is no plainer.
fn fill(v: Answer, n: usize, number: &mut [usize]) -> u8
    ensures answer { result ≡ answer_number v }
    ensures number { number.new ≡ number_over n number.old }
{
    put_number(n, number);
    u8::from(v)
}

// The samples of a command, and how many clocks they are.
#[unsafe(no_mangle)]
pub extern "C" fn tondravik_build(
    part: u8,
    opcode: u8,
    mode: u8,
    address: u32,
    cr2: u8,
    wanted: usize,
    written: &[u8],
    samples: &mut [u8],
    clocks: &mut [usize],
) -> u8
    ensures { filled_as result samples.new clocks.new ≡ build_in (order_in part opcode mode address cr2 (bytes wanted) written.now) samples.old clocks.old }
{
    if clocks.len() != NUMBER {
        return u8::from(Answer::Size);
    }
    let o = Order {
        part,
        opcode,
        mode,
        address,
        cr2,
        wanted: Bytes::stated(wanted),
    };
    match host::build(o, written, samples) {
        Ok(n) => fill(Answer::Done, n.in_clocks(), clocks),
        Err(v) => fill(v, 0, clocks),
    }
}

// The bytes of what the device drove on so many wires, and how many they are.
#[unsafe(no_mangle)]
pub extern "C" fn tondravik_gather(
    wires: u8,
    driven: &[u8],
    bytes: &mut [u8],
    number: &mut [usize],
) -> u8
    ensures { filled_as result bytes.new number.new ≡ gather_in wires driven.now bytes.old number.old }
{
    if number.len() != NUMBER {
        return u8::from(Answer::Size);
    }
    match host::gather(wires, driven, bytes) {
        Ok(n) => fill(Answer::Done, n.in_bytes(), number),
        Err(v) => fill(v, 0, number),
    }
}
