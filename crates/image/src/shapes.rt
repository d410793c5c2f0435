// Whether bytes have the shape of an image: the length, flags that are flags, and spare bytes that are 0.
ghost use Rattle.std.specs.Prelude.{◌≡◌, true, false, MatchOption};
ghost use Rattle.image.specs.Image.{flagged, spared, shaped};

use crate::fields;
use crate::fields::IMAGE;
use state_check::are_zero;

#[tactic(auto, unfolding(crate::specs::Image::flagged))]
fn has_flags(image: &[u8; IMAGE]) -> bool
    ensures { result ≡ flagged image.now }
{
    image[fields::LATCH] <= 1
        && image[fields::ARMED] <= 1
        && image[fields::ASLEEP] <= 1
        && image[fields::TOGGLE] <= 1
        && image[fields::SELECTED] <= 1
}

#[tactic(auto, unfolding(crate::specs::Image::spared))]
fn has_spares(image: &[u8; IMAGE]) -> bool
    ensures { result ≡ spared image.now }
{
    are_zero(&image[fields::BESIDE_MAKE..fields::STATUS])
        && are_zero(&image[fields::BESIDE_IDENTITIES..fields::SELECTED])
        && are_zero(&image[fields::BESIDE_OPCODE..fields::CLOCKS])
        && are_zero(&image[fields::BESIDE_VALUE..fields::IMAGE])
}

// The bytes as an image, where they have the shape of one.
#[tactic(auto, unfolding(crate::specs::Image::shaped))]
pub fn shaped(image: &[u8]) -> Option<&[u8; IMAGE]>
    ensures { MatchOption result (shaped image.now ≡ false) (λ a. (shaped image.now ≡ true) × (a.now ≡ image.now)) }
{
    let Ok(whole) = <&[u8; IMAGE]>::try_from(image) else {
        return None;
    };
    if has_flags(whole) && has_spares(whole) {
        Some(whole)
    } else {
        None
    }
}
