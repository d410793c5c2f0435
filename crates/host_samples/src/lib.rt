// What the host sends, clock by clock: numbers on so many wires, high bits first, and silent clocks. A sample is sent in
// each clock, so a page's place is the number of clocks before it: the samples and their place travel together.
#![tactic(auto)]

ghost use Rattle.std.specs.Prelude.{◌≡◌};
ghost use Rattle.units.specs.Units.{clocks_of, byte_clocks};
ghost use Rattle.wires.specs.Bits.{above, spread};
ghost use Rattle.buffers.specs.Page.{puts_of};
ghost use Rattle.buffers.specs.Shown.{shown};
ghost use Rattle.paper.specs.Building.{spread_all, silent};

use buffers::Page;
use units::{Bytes, Clocks, Wires, byte_clocks, clocks_within};

// The bits of `v` that have so many clocks' bits below them. There are none past its last.
fn bits_above(v: u32, below: Clocks, w: Wires) -> u8
    ensures { result ≡ above w below.0 v }
{
    (wires::shifted(v, below, w) % u32::from(wires::values(w))) as u8
}

// The low bits of `v`, in so many clocks.
pub fn put_number(page: &mut Page, w: Wires, c: Clocks, v: u32)
    ensures same_buffer { page.new.bytes.ghost_name ≡ page.old.bytes.ghost_name }
    ensures put { shown page.new ≡ puts_of (spread w c v) (shown page.old) }
{
    for below in (0..c.in_clocks()).rev() {
        page.put(bits_above(v, Clocks::stated(below), w));
    }
}

// Clocks in which the host sends nothing.
pub fn put_silent(page: &mut Page, c: Clocks)
    ensures same_buffer { page.new.bytes.ghost_name ≡ page.old.bytes.ghost_name }
    ensures put { shown page.new ≡ puts_of (silent c) (shown page.old) }
{
    for _ in 0..c.in_clocks() {
        page.put(0);
    }
}

// A byte.
pub fn put_byte(page: &mut Page, w: Wires, b: u8)
    ensures same_buffer { page.new.bytes.ghost_name ≡ page.old.bytes.ghost_name }
    ensures put { shown page.new ≡ puts_of (spread w (byte_clocks w) b) (shown page.old) }
{
    put_number(page, w, byte_clocks(w), u32::from(b));
}

// The bytes of a write, the first first.
pub fn put_written(page: &mut Page, w: Wires, written: &[u8])
    ensures same_buffer { page.new.bytes.ghost_name ≡ page.old.bytes.ghost_name }
    ensures put { shown page.new ≡ puts_of (spread_all w written.now) (shown page.old) }
{
    for b in written {
        put_byte(page, w, *b);
    }
}

// The clocks in which the device is to send so many bytes. More of them than the buffer has samples would fill it just
// the same, so that they need not be counted.
pub fn put_wanted(page: &mut Page, w: Wires, wanted: Bytes)
    ensures same_buffer { page.new.bytes.ghost_name ≡ page.old.bytes.ghost_name }
    ensures put { shown page.new ≡ puts_of (silent (clocks_of w wanted)) (shown page.old) }
{
    let room = Clocks::stated(page.room());
    put_silent(page, clocks_within(wanted, w, room));
}
