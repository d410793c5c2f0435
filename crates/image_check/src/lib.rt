// Whether bytes are the image of a valid record, an open transaction included: what every call over an image asks first.
#![tactic(auto)]

ghost use Rattle.std.specs.Prelude.{◌≡◌, true, false, MatchOption};
ghost use Rattle.image.specs.Image.{record_of};
ghost use Rattle.image_check.specs.Accepted.{valid_record, accepted};

use image::{record_of, shaped};
use parts::{Part, is_offered};
use record::Device;

// Whether a record is a chip's: part and n in their ranges, and the state check passed.
pub fn is_valid(d: Device) -> bool
    ensures { result ≡ valid_record d }
{
    let Ok(part) = Part::try_from(d.make.part) else {
        return false;
    };
    is_offered(part, d.make.n) && underway::valid(d)
}

// The record of an image, where bytes are one.
#[tactic(auto, unfolding(crate::specs::Accepted::accepted))]
pub fn accepted(image: &[u8]) -> Option<Device>
    ensures { MatchOption result (accepted image.now ≡ false) (λ d. (accepted image.now ≡ true) × (d ≡ record_of image.now)) }
{
    let d = record_of(shaped(image)?);
    if is_valid(d) { Some(d) } else { None }
}

// Whether they are one.
pub fn is_accepted(image: &[u8]) -> bool
    ensures { result ≡ accepted image.now }
{
    accepted(image).is_some()
}
