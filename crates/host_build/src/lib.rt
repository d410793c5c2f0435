// A command as samples, and what of it is refused: the rows of the host's table, and the phases one after the other.
#![tactic(auto)]

ghost use Rattle.std.specs.Prelude.{◌≡◌, false, ◌||◌, MatchResult};
ghost use Rattle.units.specs.Units.{fewer, longest};
ghost use Rattle.record.specs.declared.answers.Answer.TheVariants.{Done};
ghost use Rattle.record.specs.Answers.{is_done};
ghost use Rattle.buffers.specs.Page.{page, puts_of};
ghost use Rattle.buffers.specs.Shown.{shown};
ghost use Rattle.paper.specs.Reading.{many};
ghost use Rattle.paper.specs.Building.{data_sent, built_of};
ghost use Rattle.host_order.specs.Orders.{order_as};
ghost use Rattle.host_build.specs.Sizes.{rest_of, bytes_sent, front_of, refusal_of};

use buffers::Page;
use commands::plans::{Body, address_of, later_wires, wait_of};
use host_order::{Order, body_asked, is_beyond, is_few, is_many, is_overlong_wait};
use host_samples::{put_byte, put_number, put_silent, put_wanted, put_written};
use kinds::{Kind, is_unknown};
use plan_in_force::address_length;
use record::{Answer, mode_wires};
use units::{Bytes, Clocks, Wires, byte_clocks, bytes_to_clocks};

// More bytes than any transaction carries, and few enough that their clocks are counted.
const MOST_BYTES: usize = 65535;

// ---- the samples

// The data: silent clocks for a read, the bytes of a write.
fn put_data(page: &mut Page, o: Order, b: Body, w: Wires, written: &[u8])
    ensures same_buffer { page.new.bytes.ghost_name ≡ page.old.bytes.ghost_name }
    ensures put { shown page.new ≡ puts_of (data_sent b w (order_as o written.now)) (shown page.old) }
{
    match b {
        Body::Nothing => {}
        Body::FixedRead(_) | Body::AnyRead => put_wanted(page, w, o.wanted),
        Body::FixedWrite(_) | Body::AnyWrite => put_written(page, w, written),
    }
}

// The wait and the data.
fn put_rest(page: &mut Page, o: Order, k: Kind, w: Wires, written: &[u8])
    ensures same_buffer { page.new.bytes.ghost_name ≡ page.old.bytes.ghost_name }
    ensures put { shown page.new ≡ puts_of (rest_of (order_as o written.now) k w) (shown page.old) }
{
    put_silent(page, wait_of(k, w, o.cr2));
    put_data(page, o, body_asked(o, k), later_wires(k, w), written);
}

// Command, address, wait and data, from the front of the buffer. Order, kind and what is written go apart: the definitions of the
// paper are asked with each (`built_of`, `body_asked`), and `order_as` alone puts order and written bytes together.
pub fn put_built(o: Order, k: Kind, written: &[u8], samples: &mut [u8]) -> Clocks
    ensures { page result.0 samples.new ≡ puts_of (built_of (order_as o written.now) k) (page 0 samples.old) }
{
    let mut page = Page::begun(samples, 0);
    let w = mode_wires(o.mode);
    let v = later_wires(k, w);
    put_byte(&mut page, w, o.opcode);
    put_number(&mut page, v, address_length(address_of(k), v), o.address);
    put_rest(&mut page, o, k, w, written);
    Clocks::stated(page.place())
}

// ---- the refusals

// How many bytes the data is.
fn bytes_sent(b: Body, wanted: Bytes, written: Bytes) -> Bytes
    ensures { result ≡ bytes_sent b wanted written }
{
    match b {
        Body::Nothing => Bytes::none(),
        Body::FixedRead(_) | Body::AnyRead => wanted,
        Body::FixedWrite(_) | Body::AnyWrite => written,
    }
}

// The clocks before the data.
fn front_clocks(k: Kind, w: Wires, cr2: u8) -> Clocks
    ensures { result ≡ front_of k w cr2 }
{
    let command = byte_clocks(w);
    let address = address_length(address_of(k), later_wires(k, w));
    let wait = wait_of(k, w, cr2);
    command + address + wait
}

// More clocks than a transaction has, or than there is room for.
fn is_over(c: Clocks, room: Clocks) -> bool
    ensures { result ≡ (fewer longest c || fewer room c) }
{
    Clocks::longest() < c || room < c
}

// 1: too many samples. So much data that its clocks might not be counted is too much by itself.
fn is_oversized(o: Order, k: Kind, written: &[u8], samples: &[u8]) -> bool
    ensures { result ≡ (fewer longest (many (built_of (order_as o written.now) k)) || fewer (many samples.now) (many (built_of (order_as o written.now) k))) }
{
    let n = bytes_sent(body_asked(o, k), o.wanted, Bytes::of_store(written));
    if Bytes::stated(MOST_BYTES) < n {
        return true;
    }
    let w = mode_wires(o.mode);
    let front = front_clocks(k, w, o.cr2);
    let body = bytes_to_clocks(n, later_wires(k, w));
    is_over(front + body, Clocks::of_samples(samples))
}

// The first row that holds.
pub fn refusal(o: Order, k: Kind, written: &[u8], samples: &[u8]) -> Result<(), Answer>
    ensures { MatchResult result (λ u. refusal_of (order_as o written.now) k samples.now ≡ Done) (λ v. (v ≡ refusal_of (order_as o written.now) k samples.now) × (is_done v ≡ false)) }
{
    if is_unknown(k) {
        return Err(Answer::Unknown);
    }
    if is_beyond(o, k) {
        return Err(Answer::Address);
    }
    if is_overlong_wait(o, k) {
        return Err(Answer::Reserved);
    }
    let b = body_asked(o, k);
    let n = Bytes::of_store(written);
    if is_few(b, o.wanted, n) {
        return Err(Answer::Short);
    }
    if is_many(b, o.wanted, n) {
        return Err(Answer::Long);
    }
    if is_oversized(o, k, written, samples) {
        return Err(Answer::Size);
    }
    Ok(())
}
