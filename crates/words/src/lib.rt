// Numbers in words that C lends: so many as are due, or none is written.
#![tactic(auto)]

ghost use Rattle.std.specs.Prelude.{◌≡◌, cond, eqb, length};
ghost use Rattle.words.specs.Words.{counts_over, number_over};

use counts::Counts;

// The words of the counts, and of a number.
pub const COUNTS: usize = 5;

pub const NUMBER: usize = 1;

// So many numbers, put into words that have room for just them.
fn put_words<const N: usize>(numbers: [usize; N], words: &mut [usize])
    ensures { words.new ≡ cond (eqb (length words.old) N) numbers.entry words.old }
{
    if words.len() == N {
        words.copy_from_slice(&numbers);
    }
}

// Five counts.
#[tactic(auto, unfolding(crate::specs::Words::counts_over))]
pub fn put_counts(c: Counts, words: &mut [usize])
    ensures { words.new ≡ counts_over c words.old }
{
    let numbers: [usize; COUNTS] = [
        c.command.in_clocks(),
        c.address.in_clocks(),
        c.wait.in_clocks(),
        c.body.in_clocks(),
        c.rest.in_clocks(),
    ];
    put_words(numbers, words);
}

// One number.
#[tactic(auto, unfolding(crate::specs::Words::number_over))]
pub fn put_number(n: usize, words: &mut [usize])
    ensures { words.new ≡ number_over n words.old }
{
    let numbers: [usize; NUMBER] = [n];
    put_words(numbers, words);
}
