// Text gathered on a page before it is written out.
#![tactic(auto)]

ghost use Rattle.std.specs.Prelude.{◌≡◌, replicate};
ghost use Rattle.buffers.specs.Page.{puts_of};
ghost use Rattle.buffers.specs.Shown.{shown};
ghost use Rattle.text.specs.Decimal.{decimal_of};
ghost use Rattle.text.specs.Hexadecimal.{hex_of, hexes_of};

pub use buffers::Page;

// A number in decimal. It is put byte by byte, not by `write!`: the clause says which bytes they are (`decimal_of`), which
// `write!` tells no proof.
pub fn put_decimal(page: &mut Page, v: u64)
    ensures same_buffer { page.new.bytes.ghost_name ≡ page.old.bytes.ghost_name }
    ensures put { shown page.new ≡ puts_of (decimal_of v) (shown page.old) }
{
    let mut digits = [0u8; 20];
    let n = io::decimal(v, &mut digits);
    page.put_all(&digits[..n]);
}

const DIGITS: [u8; 16] = *b"0123456789ABCDEF";

// So many zeros.
fn put_zeros(page: &mut Page, count: usize)
    ensures same_buffer { page.new.bytes.ghost_name ≡ page.old.bytes.ghost_name }
    ensures put { shown page.new ≡ puts_of (replicate count 48) (shown page.old) }
{
    for _ in 0..count {
        page.put(b'0');
    }
}

// A byte in hexadecimal, in upper case, with so many digits at least. Its digits are looked up: whole images and outputs are put so,
// and `write!` takes several times as long for a byte.
#[tactic(auto, using(buffers::specs::Laws::puts_append), unfolding(crate::specs::Hexadecimal::hex_of, buffers::specs::Page::puts_of))]
fn put_hex(page: &mut Page, b: u8, width: usize)
    ensures same_buffer { page.new.bytes.ghost_name ≡ page.old.bytes.ghost_name }
    ensures put { shown page.new ≡ puts_of (hex_of width b) (shown page.old) }
{
    put_zeros(page, width.saturating_sub(2));
    if 1 < width || 15 < b {
        page.put(DIGITS[usize::from(b / 16)]);
    }
    page.put(DIGITS[usize::from(b % 16)]);
}

// Bytes in hexadecimal, in upper case, with so many digits each at least.
pub fn put_each(page: &mut Page, bytes: &[u8], width: usize)
    ensures same_buffer { page.new.bytes.ghost_name ≡ page.old.bytes.ghost_name }
    ensures put { shown page.new ≡ puts_of (hexes_of width bytes.now) (shown page.old) }
{
    for b in bytes {
        put_hex(page, *b, width);
    }
}

// Bytes in hexadecimal, two digits each.
pub fn put_bytes(page: &mut Page, bytes: &[u8])
    ensures same_buffer { page.new.bytes.ghost_name ≡ page.old.bytes.ghost_name }
    ensures put { shown page.new ≡ puts_of (hexes_of 2 bytes.now) (shown page.old) }
{
    put_each(page, bytes, 2);
}

// Writes the page to a file. The next text begins at the front.
pub fn flush_to(fd: i32, page: &mut Page)
    ensures { page.new.bytes.ghost_name ≡ page.old.bytes.ghost_name }
{
    io::write_all(fd, page.written());
    page.clear();
}

// The same to standard output.
pub fn flush(page: &mut Page)
    ensures { page.new.bytes.ghost_name ≡ page.old.bytes.ghost_name }
{
    flush_to(1, page);
}

// The same once half of the buffer is full.
pub fn flush_full(page: &mut Page)
    ensures { page.new.bytes.ghost_name ≡ page.old.bytes.ghost_name }
{
    if page.is_half_full() {
        flush(page);
    }
}

#[cfg(test)]
mod tests {
    use super::*;

    // As many digits as are asked for, above sixteen too, and both of a byte that needs them.
    #[test]
    fn digits_by_width(rt: HostRuntime) {
        let mut buffer = [0; 64];
        let mut page = Page::begun(&mut buffer, 0);
        put_each(&mut page, &[0xA5, 0x0B], 20);
        put_each(&mut page, &[0xA5, 0x0B], 1);
        put_each(&mut page, &[0xA5, 0x0B], 0);
        put_bytes(&mut page, &[0xA5, 0x0B]);
        assert_eq!(rt;
            page.written(),
            b"000000000000000000A50000000000000000000BA5BA5BA50B".as_slice()
        );
    }
}
