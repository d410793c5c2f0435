// A page: bytes gathered in a lent buffer, one after the other. What finds no room is left out, and the place stays.
#![tactic(auto)]

ghost use Rattle.std.specs.Prelude.{◌≡◌, ◌+◌, ◌*◌, ◌/◌, ◌≤◌, cond, [], length, get_or, take, leb, ltb};
ghost use Rattle.buffers.specs.Page.{page, put_of, puts_of};
ghost use Rattle.buffers.specs.Shown.{shown};

use std::fmt;
use std::fmt::Write;

// The buffer, and the place where the next byte goes. That a call leaves a page on the same buffer is said in each contract
// (`same_buffer`) and by no invariant: an invariant speaks of one value, and this is of the page before and the page after.
#[derive(Drop)]
pub struct Page<'a> {
    bytes: &'a mut [u8],
    at: usize,
}

impl<'a> Page<'a> {
    // From a place of a buffer on.
    pub fn begun(bytes: &'a mut [u8], at: usize) -> Page<'a>
        ensures same_buffer { result.bytes.ghost_name ≡ bytes.entry.ghost_name }
        ensures begun { shown result ≡ page at bytes.old }
    {
        Page { bytes, at }
    }
}

impl Page<'_> {
    // The place where the next byte goes.
    pub fn place(&self) -> usize
        ensures { result ≡ self.now.at }
    {
        self.at
    }

    // How many bytes the buffer has.
    pub fn room(&self) -> usize
        ensures { result ≡ length self.now.bytes.now }
    {
        self.bytes.len()
    }

    // One byte.
    pub fn put(&mut self, b: u8)
        ensures same_buffer { self.new.bytes.ghost_name ≡ self.old.bytes.ghost_name }
        ensures put { shown self.new ≡ put_of b (shown self.old) }
    {
        if self.at < self.bytes.len() {
            self.bytes[self.at] = b;
            self.at += 1;
        }
    }

    // Bytes, one after the other.
    pub fn put_all(&mut self, bytes: &[u8])
        ensures same_buffer { self.new.bytes.ghost_name ≡ self.old.bytes.ghost_name }
        ensures put { shown self.new ≡ puts_of bytes.now (shown self.old) }
    {
        for b in bytes {
            self.put(*b);
        }
    }

    // What stands before the place, and nothing where that is past the buffer.
    pub fn written(&self) -> &[u8]
        ensures { result.now ≡ cond (leb self.now.at (length self.now.bytes.now)) (take self.now.at self.now.bytes.now) [] }
    {
        self.bytes.get(..self.at).unwrap_or(&[])
    }

    // The next byte goes to the front.
    pub fn clear(&mut self)
        ensures same_buffer { self.new.bytes.ghost_name ≡ self.old.bytes.ghost_name }
        ensures cleared { shown self.new ≡ page 0 self.old.bytes.now }
    {
        self.at = 0;
    }

    // Whether more than half of the buffer is full.
    pub fn is_half_full(&self) -> bool
        ensures { result ≡ ltb (length self.now.bytes.now / 2) self.now.at }
    {
        self.bytes.len() / 2 < self.at
    }

    // A text.
    pub fn write_str(&mut self, text: &str)
        ensures same_buffer { self.new.bytes.ghost_name ≡ self.old.bytes.ghost_name }
        ensures put { shown self.new ≡ puts_of text.now (shown self.old) }
    {
        self.put_all(text.as_bytes());
    }

    // What `write!` and `writeln!` call. It has no result, since a page refuses nothing: what finds no room is left out.
    pub fn write_fmt<D: fmt::Display + Drop>(&mut self, text: D) {
        let _ = self.write(text);
    }
}

impl fmt::Write for Page<'_> {
    ghost write_str_gives = { λ old text new. (new.bytes.ghost_name ≡ old.bytes.ghost_name) × (shown new ≡ puts_of text (shown old)) };

    fn write_str(&mut self, s: &str) -> fmt::Result {
        Page::write_str(self, s);
        Ok(())
    }
}

// The number that four bytes are, the lowest first.
pub fn number_of(a: u8, b: u8, c: u8, d: u8) -> u32
    ensures { result ≡ a + 256 * b + 65536 * (c + 256 * d) }
{
    u32::from_le_bytes([a, b, c, d])
}

// The number that the four bytes from a place on are.
pub fn number_at(bytes: &[u8], at: usize) -> u32
    requires { at + 4 ≤ length bytes.now }
    ensures { result ≡ get_or bytes.now at 0 + 256 * get_or bytes.now (at + 1) 0 + 65536 * (get_or bytes.now (at + 2) 0 + 256 * get_or bytes.now (at + 3) 0) }
{
    number_of(bytes[at], bytes[at + 1], bytes[at + 2], bytes[at + 3])
}
