// Columns of the lines that are held against the second program: numbers, and digests of what is too long to print.
#![tactic(auto)]

ghost use Rattle.std.specs.Prelude.{◌≡◌};
ghost use Rattle.buffers.specs.Page.{puts_of};
ghost use Rattle.buffers.specs.Shown.{shown};
ghost use Rattle.bench_columns.specs.Columns.{column_of, five_of};

use counts::Counts;
use std::fmt;
use std::fmt::Write;
use text::{Page, put_decimal};
use units::Clocks;

// A number behind a space. Numbers are put by calls, not by `write!`: the clauses say which bytes they are (`column_of`, and
// `five_of` below).
pub fn column(page: &mut Page, v: u64)
    ensures same_buffer { page.new.bytes.ghost_name ≡ page.old.bytes.ghost_name }
    ensures put { shown page.new ≡ puts_of (column_of v) (shown page.old) }
{
    page.put(b' ');
    put_decimal(page, v);
}

// A number of clocks.
fn clocks_column(page: &mut Page, c: Clocks)
    ensures same_buffer { page.new.bytes.ghost_name ≡ page.old.bytes.ghost_name }
    ensures put { shown page.new ≡ puts_of (column_of c.0) (shown page.old) }
{
    column(page, c.in_clocks() as u64);
}

// The five counts, in the papers' order.
pub fn five(page: &mut Page, c: Counts)
    ensures same_buffer { page.new.bytes.ghost_name ≡ page.old.bytes.ghost_name }
    ensures put { shown page.new ≡ puts_of (five_of c) (shown page.old) }
{
    clocks_column(page, c.command);
    clocks_column(page, c.address);
    clocks_column(page, c.wait);
    clocks_column(page, c.body);
    clocks_column(page, c.rest);
}

// A number in which order and length of the bytes both count.
fn digest(bytes: &[u8]) -> u64 {
    bytes.iter().fold(1, |sum, b| {
        (sum % 4294967291 * 65599 + u64::from(*b) + 1) % 4294967291
    })
}

// The digest of bytes, behind a space.
pub fn digest_column(page: &mut Page, bytes: &[u8]) {
    write!(page, " {:08X}", digest(bytes));
}

// A buffer of any length. It comes out of a function, so that its length is known by its type alone: a large array that is written
// out is known by each of its elements.
pub fn room<const N: usize>() -> [u8; N] {
    [0; N]
}

// Each byte of a buffer by its place.
pub fn fill_by<F: Fn(usize) -> u8>(buffer: &mut [u8], byte: F)
    requires { F.IsAlwaysCallable byte }
{
    for (i, x) in buffer.iter_mut().enumerate() {
        *x = byte(i);
    }
}

// A buffer that shows what is written to it later.
pub fn fill(out: &mut [u8]) {
    out.fill(0xA5);
}

// The input ends too early.
pub fn cut(page: &mut Page) {
    page.put_all(b"cut\n");
}
