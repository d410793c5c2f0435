// From a record to its image.
ghost use Rattle.std.specs.Prelude.{◌≡◌, length};
ghost use Rattle.buffers.specs.Page.{puts_of};
ghost use Rattle.buffers.specs.Shown.{shown};
ghost use Rattle.image.specs.Layout.{image_size};
ghost use Rattle.image.specs.Image.{four_of, image_of};
ghost use Rattle.image.specs.Stretches.{bare_bytes, open_bytes, front_bytes, back_bytes};

use buffers::Page;
use record::{Device, Underway};

// A number as four bytes, the lowest first.
fn four_of(n: usize) -> [u8; 4]
    ensures { result ≡ four_of n }
{
    let [a, b, c, d, ..] = n.to_le_bytes();
    [a, b, c, d]
}

// What stands before the identities.
fn bare_bytes(d: Device) -> [u8; 16]
    ensures { result ≡ bare_bytes d }
{
    let r = d.registers;
    let v = d.volatile;
    [
        d.make.part,
        d.make.n,
        0,
        0,
        r.status,
        r.protection,
        r.cr1,
        r.cr2,
        r.cr3,
        r.cr4,
        r.mr0,
        v.mode,
        u8::from(v.latch),
        u8::from(v.armed),
        u8::from(v.asleep),
        u8::from(v.toggle),
    ]
}

// The open transaction but for its value.
fn put_open(page: &mut Page, u: Underway)
    ensures same_buffer { page.new.bytes.ghost_name ≡ page.old.bytes.ghost_name }
    ensures put { shown page.new ≡ puts_of (open_bytes u) (shown page.old) }
{
    page.put_all(&[u8::from(u.selected), u.opcode, 0, 0]);
    page.put_all(&four_of(u.clocks.in_clocks()));
    page.put_all(&u.address.to_le_bytes());
    page.put_all(&u.number.to_le_bytes());
}

// The image up to the open transaction.
fn put_front(page: &mut Page, d: Device)
    ensures same_buffer { page.new.bytes.ghost_name ≡ page.old.bytes.ghost_name }
    ensures put { shown page.new ≡ puts_of (front_bytes d) (shown page.old) }
{
    page.put_all(&bare_bytes(d));
    page.put_all(&d.identity.device);
    page.put_all(&d.identity.unique);
    page.put_all(&d.identity.serial);
    page.put_all(&[0; 24]);
}

// And from there on.
fn put_back(page: &mut Page, u: Underway)
    ensures same_buffer { page.new.bytes.ghost_name ≡ page.old.bytes.ghost_name }
    ensures put { shown page.new ≡ puts_of (back_bytes u) (shown page.old) }
{
    put_open(page, u);
    page.put_all(&u.value);
    page.put_all(&[0; 40]);
}

// A record put into a buffer that has an image's length.
pub fn put_record(d: Device, image: &mut [u8])
    requires { length image.old ≡ image_size }
    ensures { image.new ≡ image_of d }
{
    let mut page = Page::begun(image, 0);
    put_front(&mut page, d);
    put_back(&mut page, d.underway);
}
