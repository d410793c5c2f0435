// A probe of the device: read off its 32 bytes, called over the image that comes with it, or over the record that the image's bytes
// spell, and the line with all that it left. A probe may go on from what the one before it left.
#![tactic(auto)]

ghost use Rattle.std.specs.Prelude.{◌≡◌, ok_or};
ghost use Rattle.against_probes.specs.Probes.{begins, callable, admits};

use against_columns::call_columns;
use against_input::Cut;
use bench_columns::{digest_column, fill_by};
use buffers::number_at;
use counts::Counts;
use image::{IMAGE, put_record, record_of};
use image_calls::Reply;
use parts::Part;
use record::Answer;
use std::fmt;
use std::fmt::Write;
use text::{Page, put_bytes};

// The lengths of what is lent. Those of a device identity and of a unique number are for a fresh chip. They stand without the buffers:
// they are read off the 32 bytes before anything is cut to them (`Lent::sized`).
#[derive(Clone, Copy)]
pub struct Lengths {
    pub memory: usize,
    pub area: usize,
    pub samples: usize,
    pub output: usize,
    pub image: usize,
    pub device: usize,
    pub unique: usize,
}

// What the device does.
#[derive(Clone, Copy, PartialEq, Eq)]
pub enum Step {
    Transact,
    PowerCycle,
    Open,
    Feed,
    Close,
}

// A call of the device, over a record or over an image, or a fresh chip.
#[derive(Clone, Copy, PartialEq, Eq)]
pub enum Call {
    OverRecord(Step),
    OverImage(Step),
    Fresh(Part),
}

// A call of the device. `is_next` says that the probe goes on from the one before it. `seed` is where the contents of what is lent
// begin, `n` that of a fresh chip.
#[derive(Clone, Copy)]
pub struct Probe {
    pub call: Call,
    pub is_next: bool,
    pub seed: u8,
    pub n: u8,
    pub lengths: Lengths,
}

// What a probe leaves to the next one: how long its image is, and how much of memory and area the first of its sequence filled.
// Lengths and no slices: the buffers are lent anew for each probe.
#[derive(Clone, Copy)]
pub struct Left {
    pub image: usize,
    pub memory: usize,
    pub area: usize,
}

// What is lent for a call.
#[derive(Drop)]
pub struct Lent<'a> {
    pub image: &'a mut [u8],
    pub memory: &'a mut [u8],
    pub area: &'a mut [u8],
    pub samples: &'a mut [u8],
    pub output: &'a mut [u8],
}

// ---- a probe off its bytes

impl TryFrom<u8> for Step {
    type Error = Cut;

    fn try_from(number: u8) -> Result<Self, Cut> {
        match number {
            1 => Ok(Step::Transact),
            2 => Ok(Step::PowerCycle),
            3 => Ok(Step::Open),
            4 => Ok(Step::Feed),
            5 => Ok(Step::Close),
            _ => Err(Cut),
        }
    }
}

// Over a record the steps are numbered from 1 on, over an image from 11 on, and fresh chips are 20 and the number of their part.
impl TryFrom<u8> for Call {
    type Error = Cut;

    fn try_from(number: u8) -> Result<Self, Cut> {
        match number / 10 {
            0 => Ok(Call::OverRecord(Step::try_from(number)?)),
            1 => Ok(Call::OverImage(Step::try_from(number - 10)?)),
            2 => Ok(Call::Fresh(Part::try_from(number - 20).map_err(|_| Cut)?)),
            _ => Err(Cut),
        }
    }
}

fn lengths_of(h: [u8; 32]) -> Lengths {
    Lengths {
        memory: number_at(&h, 4) as usize,
        area: number_at(&h, 8) as usize,
        samples: number_at(&h, 12) as usize,
        output: number_at(&h, 16) as usize,
        image: number_at(&h, 20) as usize,
        device: number_at(&h, 24) as usize,
        unique: number_at(&h, 28) as usize,
    }
}

impl TryFrom<[u8; 32]> for Probe {
    type Error = Cut;

    fn try_from(h: [u8; 32]) -> Result<Self, Cut> {
        Ok(Probe {
            call: Call::try_from(h[0])?,
            is_next: match h[1] {
                0 => false,
                1 => true,
                _ => return Err(Cut),
            },
            seed: h[2],
            n: h[3],
            lengths: lengths_of(h),
        })
    }
}

// ---- what is lent

// What a probe goes by: what its lengths say, or what the one before it left. One that goes on has something to go on from, brings
// no image of its own, and is lent no more than there is.
#[tactic(auto, unfolding(crate::specs::Probes::begins))]
fn from_of(p: Probe, left: Option<Left>) -> Option<Left>
    ensures { result ≡ begins p left }
{
    let l = p.lengths;
    if p.is_next {
        left.filter(|f| l.image == 0 && l.memory <= f.memory && l.area <= f.area)
    } else {
        Some(Left {
            image: l.image,
            memory: l.memory,
            area: l.area,
        })
    }
}

// What a probe begins with and leaves to the next one, whether there is its call or not.
pub fn begun(p: Probe, left: Option<Left>) -> Result<Left, Cut>
    ensures { result ≡ ok_or (begins p left) (record {}) }
{
    from_of(p, left).ok_or(Cut)
}

// Whether there is its call: over a record the image has the length of one, and a fresh chip's identities are among the samples.
fn is_callable(p: Probe, image: usize) -> bool
    ensures { result ≡ callable p.call p.lengths image }
{
    let l = p.lengths;
    match p.call {
        Call::OverRecord(_) => image == IMAGE,
        Call::OverImage(_) => true,
        Call::Fresh(_) => l.device <= l.samples && l.unique <= l.samples - l.device,
    }
}

// The same of a probe that can be called. That is known by its head: nothing more is taken for one that cannot.
#[tactic(auto, unfolding(crate::specs::Probes::admits))]
pub fn admitted(p: Probe, left: Option<Left>) -> Result<Left, Cut>
    ensures { result ≡ ok_or (admits p left) (record {}) }
{
    from_of(p, left)
        .filter(|from| is_callable(p, from.image))
        .ok_or(Cut)
}

impl<'a> Lent<'a> {
    // So much of the image, where there is so much, and all else as it is.
    pub fn imaged(self, image: usize) -> Result<Lent<'a>, Cut> {
        Ok(Lent {
            image: self.image.get_mut(..image).ok_or(Cut)?,
            memory: self.memory,
            area: self.area,
            samples: self.samples,
            output: self.output,
        })
    }

    // As much of it as a probe asks for, where there is so much.
    pub fn sized(self, image: usize, l: Lengths) -> Result<Lent<'a>, Cut> {
        Ok(Lent {
            image: self.image.get_mut(..image).ok_or(Cut)?,
            memory: self.memory.get_mut(..l.memory).ok_or(Cut)?,
            area: self.area.get_mut(..l.area).ok_or(Cut)?,
            samples: self.samples.get_mut(..l.samples).ok_or(Cut)?,
            output: self.output.get_mut(..l.output).ok_or(Cut)?,
        })
    }
}

// Memory and area of a probe that does not go on, and the output of any. The three differ from each other, and memory from one
// 256 bytes to the next.
fn fill_lent(p: Probe, t: &mut Lent) {
    let seed = usize::from(p.seed);
    if !p.is_next {
        fill_by(t.memory, |i| {
            ((seed + i % 256 * 7 + i / 251) % 256) as u8
        });
        fill_by(t.area, |i| ((seed + 3 + i % 256 * 5) % 256) as u8);
    }
    fill_by(t.output, |i| ((seed + 11 + i % 256 * 13) % 256) as u8);
}

// ---- the call

// A reply without clocks.
fn uncounted(answer: Answer) -> Reply {
    Reply {
        answer,
        counts: Counts::none(),
    }
}

// Over the record, whatever it is worth: none of the image's bytes is looked at. The image is then that of the next record. What is
// lent is named one by one, here and below, as the calls of the device and those over an image have it.
fn over_record(
    s: Step,
    image: &mut [u8],
    memory: &mut [u8],
    area: &mut [u8],
    samples: &[u8],
    output: &mut [u8],
) -> Reply {
    let Ok(whole) = <&[u8; IMAGE]>::try_from(&image[..]) else {
        return uncounted(Answer::State);
    };
    let d = record_of(whole);
    let o = match s {
        Step::Transact => device::transact(d, memory, area, samples, output),
        Step::PowerCycle => device::power_cycle(d, memory, area),
        Step::Open => device::open(d, memory, area),
        Step::Feed => device::feed(d, memory, area, samples, output),
        Step::Close => device::close(d, memory, area),
    };
    put_record(o.device, image);
    Reply {
        answer: o.answer,
        counts: o.counts,
    }
}

// The same match again: the calls over a record give an `Outcome`, those over an image a `Reply`, and take other arguments, so that one
// match with the calls as closures would name all ten as well.
fn over_image(
    s: Step,
    image: &mut [u8],
    memory: &mut [u8],
    area: &mut [u8],
    samples: &[u8],
    output: &mut [u8],
) -> Reply {
    match s {
        Step::Transact => image_calls::transact(image, memory, area, samples, output),
        Step::PowerCycle => image_calls::power_cycle(image, memory, area),
        Step::Open => image_calls::open(image, memory, area),
        Step::Feed => image_calls::feed(image, memory, area, samples, output),
        Step::Close => image_calls::close(image, memory, area),
    }
}

// A fresh chip, with the identities that stand at the front of the samples.
fn fresh(part: Part, p: Probe, samples: &[u8], image: &mut [u8]) -> Reply {
    let Some((device, rest)) = samples.split_at_checked(p.lengths.device) else {
        return uncounted(Answer::State);
    };
    let Some(unique) = rest.get(..p.lengths.unique) else {
        return uncounted(Answer::State);
    };
    let made = match part {
        Part::M => image_calls::fresh_m(p.n, device, unique, image),
        Part::P => image_calls::fresh_p(p.n, device, image),
        Part::M32 => image_calls::fresh_m32(p.n, device, unique, image),
    };
    uncounted(made.err().unwrap_or(Answer::Done))
}

// A call on what is filled, or on what was left. Over an image of another length there is no record, and a fresh chip needs its identities
// among the samples: 3 (no probe that is `admitted` comes to this). What is lent is taken apart and handed back: Rattle knows no read of
// one field while another one of the same loan is lent on.
pub fn called<'a>(p: Probe, mut t: Lent<'a>) -> (Reply, Lent<'a>) {
    fill_lent(p, &mut t);
    let Lent {
        image,
        memory,
        area,
        samples,
        output,
    } = t;
    let reply = match p.call {
        Call::OverRecord(s) => over_record(s, image, memory, area, samples, output),
        Call::OverImage(s) => over_image(s, image, memory, area, samples, output),
        Call::Fresh(part) => fresh(part, p, samples, image),
    };
    let left = Lent {
        image,
        memory,
        area,
        samples,
        output,
    };
    (reply, left)
}

// ---- its line

// All bytes of the image, or a dash.
fn image_column(page: &mut Page, image: &[u8]) {
    if image.is_empty() {
        write!(page, " -");
        return;
    }
    page.put(b' ');
    put_bytes(page, image);
}

pub fn put_line(page: &mut Page, k: u64, r: Reply, t: &Lent) {
    call_columns(page, k, r.answer, r.counts);
    image_column(page, t.image);
    digest_column(page, t.memory);
    digest_column(page, t.area);
    digest_column(page, t.output);
    writeln!(page);
}

#[cfg(test)]
mod tests {
    use super::*;

    // The head of a transaction over a record: an image of so many bytes, 16 bytes of memory and 8 of area.
    fn head_of(image: u8, is_next: u8) -> [u8; 32] {
        let mut head = [0; 32];
        head[0] = 1;
        head[1] = is_next;
        head[4] = 16;
        head[8] = 8;
        head[20] = image;
        head
    }

    fn lengths_begun(head: [u8; 32], left: Option<Left>) -> Option<(usize, usize, usize)> {
        let from = begun(Probe::try_from(head).ok()?, left).ok()?;
        Some((from.image, from.memory, from.area))
    }

    fn is_admitted(head: [u8; 32], left: Option<Left>) -> bool {
        Probe::try_from(head).is_ok_and(|p| admitted(p, left).is_ok())
    }

    // A probe begins with what its own lengths say, whether an image of them has a record or not. It is admitted where it has.
    #[test]
    fn begins_with_its_own(rt: HostRuntime) {
        assert_eq!(rt; lengths_begun(head_of(128, 0), None), Some((128, 16, 8)));
        assert_eq!(rt; lengths_begun(head_of(5, 0), None), Some((5, 16, 8)));
        assert!(rt; is_admitted(head_of(128, 0), None));
        assert!(rt; !is_admitted(head_of(5, 0), None));
    }

    // One that goes on begins with what was left, and brings no image.
    #[test]
    fn goes_on(rt: HostRuntime) {
        let left = Left {
            image: 128,
            memory: 32,
            area: 8,
        };
        let less = Left { memory: 15, ..left };
        assert_eq!(rt;
            lengths_begun(head_of(0, 1), Some(left)),
            Some((128, 32, 8))
        );
        assert!(rt; is_admitted(head_of(0, 1), Some(left)));
        assert_eq!(rt; lengths_begun(head_of(0, 1), Some(less)), None);
        assert_eq!(rt; lengths_begun(head_of(128, 1), Some(left)), None);
        assert_eq!(rt; lengths_begun(head_of(0, 1), None), None);
        assert!(rt; !is_admitted(head_of(0, 1), None));
    }
}
