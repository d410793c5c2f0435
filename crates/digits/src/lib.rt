// Words as a person writes them: numbers, and bytes as pairs of hexadecimal digits.
#![tactic(auto)]

ghost use Rattle.std.specs.Prelude.{◌≡◌};
ghost use Rattle.buffers.specs.Page.{puts_of};
ghost use Rattle.buffers.specs.Shown.{shown};
ghost use Rattle.digits.specs.Digits.{digit_of, behind, number_of, are_digits, pair_of, pairs_of, is_paired};

use buffers::Page;

// The value of a digit. The ranges are those of `digit_of`, and each has its arm; `to_digit` would want a char and give a u32, and
// both turned again is no plainer.
#[tactic(auto, unfolding(crate::specs::Digits::digit_of))]
fn digit(b: u8) -> Option<u8>
    ensures { result ≡ digit_of b }
{
    match b {
        b'0'..=b'9' => Some(b - b'0'),
        b'A'..=b'F' => Some(b - b'A' + 10),
        b'a'..=b'f' => Some(b - b'a' + 10),
        _ => None,
    }
}

// A digit of a base behind those that came to a sum, where that is no more than `most`.
#[tactic(auto, unfolding(crate::specs::Digits::behind))]
fn behind(sum: u32, b: u8, base: u8, most: u32) -> Option<u32>
    ensures { result ≡ behind base most sum b }
{
    let d = digit(b)?;
    if base <= d {
        return None;
    }
    let next = u64::from(sum) * u64::from(base) + u64::from(d);
    u32::try_from(next).ok().filter(|n| *n <= most)
}

// The number that a word of digits is in a base, no more than `most`.
#[tactic(auto, unfolding(crate::specs::Digits::number_of, crate::specs::Digits::number_from))]
pub fn number_in(word: &[u8], base: u8, most: u32) -> Option<u32>
    ensures { result ≡ number_of base most word.now }
{
    if word.is_empty() {
        return None;
    }
    let mut sum = 0;
    for b in word {
        sum = behind(sum, *b, base, most)?;
    }
    Some(sum)
}

fn are_digits(word: &[u8]) -> bool
    ensures { result ≡ are_digits word.now }
{
    word.iter().all(|b| digit(*b).is_some())
}

// Whether a word is pairs of hexadecimal digits.
#[tactic(auto, unfolding(crate::specs::Digits::is_paired))]
pub fn is_paired(word: &[u8]) -> bool
    ensures { result ≡ is_paired word.now }
{
    word.len() % 2 == 0 && are_digits(word)
}

// The byte of two digits.
#[tactic(auto, using(crate::specs::Laws::digit_small))]
fn pair(high: u8, low: u8) -> u8
    ensures { result ≡ pair_of high low }
{
    16 * digit(high).unwrap_or(15) + digit(low).unwrap_or(15)
}

// The bytes of a word of pairs.
pub fn put_pairs(page: &mut Page, word: &[u8])
    ensures same_buffer { page.new.bytes.ghost_name ≡ page.old.bytes.ghost_name }
    ensures put { shown page.new ≡ puts_of (pairs_of word.now) (shown page.old) }
{
    for two in word.chunks_exact(2) {
        page.put(pair(two[0], two[1]));
    }
}
