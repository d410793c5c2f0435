// The calls of the device over an image: each does what it does over the record that the image stands for, and leaves the image
// of the next record. 3 comes before all other checks: bytes that are no valid record's image are not looked at further, and
// nothing changes. Nothing is asked of the caller.
//
// Each call takes the record that bytes are accepted as and leaves the next one. The call over the record is no parameter of one
// function for all five: a closure that holds what is lent is not called where the bytes are turned away, and nothing is known
// then of what it held. Memory and area, samples and output are lent apart, as the calls of the device and the C interface have
// them.
#![tactic(auto)]

ghost use Rattle.std.specs.Prelude.{◌≡◌, false, [], length, IfErr};
ghost use Rattle.parts.specs.declared.Family.TheVariants.{Mram};
ghost use Rattle.parts.specs.Parts.{family_of};
ghost use Rattle.contract_words.specs.Words.{lends};
ghost use Rattle.record.specs.Answers.{is_done};
ghost use Rattle.image.specs.Layout.{image_size};
ghost use Rattle.image_calls.specs.Calls.{strange_reply, left_reply, leaves_as, imaged_as, transact_in, power_in, open_in, feed_in, close_in};
ghost use Rattle.image_calls.specs.Fresh.{made_in, fresh_mram_in, fresh_m_in, fresh_m32_in, fresh_p_in};

use counts::Counts;
use image::{IMAGE, put_record};
use image_check::accepted;
use parts::{Part, PartP, is_offered};
use record::{Answer, Device, Make, Outcome};

// What a call over an image replies: the answer and the five counts. The next record stands in the image.
#[derive(Clone, Copy)]
pub struct Reply {
    pub answer: Answer,
    pub counts: Counts,
}

// To bytes that are no image.
fn strange() -> Reply
    ensures { result ≡ strange_reply }
{
    Reply {
        answer: Answer::State,
        counts: Counts::none(),
    }
}

// What a call over the record answers, with the next record put into the image.
fn leave(o: Outcome, image: &mut [u8]) -> Reply
    requires { length image.old ≡ image_size }
    ensures { leaves_as result image.new ≡ left_reply o }
{
    put_record(o.device, image);
    Reply {
        answer: o.answer,
        counts: o.counts,
    }
}

// A transaction.
pub fn transact(
    image: &mut [u8],
    memory: &mut [u8],
    area: &mut [u8],
    samples: &[u8],
    output: &mut [u8],
) -> Reply
    ensures { imaged_as result image.new memory.new area.new output.new ≡ transact_in image.old (lends memory.old area.old) samples.now output.old }
{
    let Some(d) = accepted(image) else {
        return strange();
    };
    leave(device::transact(d, memory, area, samples, output), image)
}

// A power cycle. The area is only looked at.
pub fn power_cycle(image: &mut [u8], memory: &mut [u8], area: &[u8]) -> Reply
    ensures { imaged_as result image.new memory.new area.now [] ≡ power_in image.old (lends memory.old area.now) }
{
    let Some(d) = accepted(image) else {
        return strange();
    };
    leave(device::power_cycle(d, memory, area), image)
}

// Select goes low. Memory and area are only looked at.
pub fn open(image: &mut [u8], memory: &[u8], area: &[u8]) -> Reply
    ensures { imaged_as result image.new memory.now area.now [] ≡ open_in image.old (lends memory.now area.now) }
{
    let Some(d) = accepted(image) else {
        return strange();
    };
    leave(device::open(d, memory, area), image)
}

// The next clocks of the open transaction.
pub fn feed(
    image: &mut [u8],
    memory: &mut [u8],
    area: &mut [u8],
    samples: &[u8],
    output: &mut [u8],
) -> Reply
    ensures { imaged_as result image.new memory.new area.new output.new ≡ feed_in image.old (lends memory.old area.old) samples.now output.old }
{
    let Some(d) = accepted(image) else {
        return strange();
    };
    leave(device::feed(d, memory, area, samples, output), image)
}

// Select goes high. Memory and area are only looked at.
pub fn close(image: &mut [u8], memory: &[u8], area: &[u8]) -> Reply
    ensures { imaged_as result image.new memory.now area.now [] ≡ close_in image.old (lends memory.now area.now) }
{
    let Some(d) = accepted(image) else {
        return strange();
    };
    leave(device::close(d, memory, area), image)
}

// A fresh chip of a part of the MRAM, with its four bytes of device identity and its unique number. Whatever the bytes were, they
// are written over, so that only their number is looked at. The error is an `Answer`, and each contract here says that it is not
// `Done`: an enum of those that come would be turned into an `Answer` again for C, and the definitions tell answers (`made_in`). What
// is lent comes one by one, as C lends it (`tondravik_fresh_m`).
#[tactic(auto, using(image::specs::Laws::eight_whole, parts::specs::Laws::part_back), unfolding(crate::specs::Fresh::fresh_mram_in))]
fn fresh_mram(
    part: Part,
    n: u8,
    device: &[u8],
    unique: &[u8],
    image: &mut [u8],
) -> Result<(), Answer>
    requires { family_of part ≡ Mram }
    ensures told { made_in result image.new ≡ fresh_mram_in part n device.now unique.now image.old }
    ensures refused { IfErr result (λ v. is_done v ≡ false) }
{
    if image.len() != IMAGE {
        return Err(Answer::State);
    }
    if !is_offered(part, n) {
        return Err(Answer::Size);
    }
    let [a, b, c, d] = device else {
        return Err(Answer::Size);
    };
    let Ok(unique) = <[u8; 8]>::try_from(unique) else {
        return Err(Answer::Size);
    };
    let make = Make {
        part: u8::from(part),
        n,
    };
    put_record(
        Device::fresh(make, [*a, *b, *c, *d, 0, 0, 0, 0], unique),
        image,
    );
    Ok(())
}

// A fresh chip of part M.
pub fn fresh_m(n: u8, device: &[u8], unique: &[u8], image: &mut [u8]) -> Result<(), Answer>
    ensures told { made_in result image.new ≡ fresh_m_in n device.now unique.now image.old }
    ensures refused { IfErr result (λ v. is_done v ≡ false) }
{
    fresh_mram(Part::M, n, device, unique, image)
}

// A fresh chip of part M32.
pub fn fresh_m32(n: u8, device: &[u8], unique: &[u8], image: &mut [u8]) -> Result<(), Answer>
    ensures told { made_in result image.new ≡ fresh_m32_in n device.now unique.now image.old }
    ensures refused { IfErr result (λ v. is_done v ≡ false) }
{
    fresh_mram(Part::M32, n, device, unique, image)
}

// A fresh chip of part P, with its eight bytes of device identity. It has no unique number to look at, and the definitions of the two
// families stand apart (`fresh_mram_in`, `fresh_p_in`), so that one function for both is no plainer.
#[tactic(auto, using(image::specs::Laws::eight_whole), unfolding(crate::specs::Fresh::fresh_p_in))]
pub fn fresh_p(n: u8, device: &[u8], image: &mut [u8]) -> Result<(), Answer>
    ensures told { made_in result image.new ≡ fresh_p_in n device.now image.old }
    ensures refused { IfErr result (λ v. is_done v ≡ false) }
{
    if image.len() != IMAGE {
        return Err(Answer::State);
    }
    if !is_offered(Part::P, n) {
        return Err(Answer::Size);
    }
    let Ok(device) = <[u8; 8]>::try_from(device) else {
        return Err(Answer::Size);
    };
    let make = Make {
        part: PartP::NUMBER,
        n,
    };
    put_record(Device::fresh(make, device, [0; 8]), image);
    Ok(())
}
