// Input of the programs that are held against the second one: heads of so many bytes, each with what follows it, or tapes, each
// behind its length in four bytes.
#![tactic(auto)]

use bench_columns::cut;
use text::{Page, flush};

// The input ends before all is there that it asks for, or asks for what there is not.
#[derive(Clone, Copy, PartialEq, Eq)]
pub struct Cut;

// Fills a buffer from standard input.
pub fn take(buffer: &mut [u8]) -> Result<(), Cut> {
    if io::read_full(0, buffer) < buffer.len() {
        return Err(Cut);
    }
    Ok(())
}

// So many bytes of standard input, or nothing where it has ended before them.
pub fn take_head<const N: usize>() -> Result<Option<[u8; N]>, Cut> {
    let mut head = [0; N];
    let n = io::read_full(0, &mut head);
    if n == 0 {
        return Ok(None);
    }
    if n < N {
        return Err(Cut);
    }
    Ok(Some(head))
}

// Passes over so many bytes of standard input.
fn pass_over(count: usize) -> Result<(), Cut> {
    for _ in 0..count {
        take(&mut [0; 1])?;
    }
    Ok(())
}

// Takes the next tape of standard input into a buffer, and tells its length, or nothing at the end of the input. A tape too long
// for the buffer is passed over. The length is told and no slice, since one that is too long has a length too, which is printed:
// `get(..long)` tells the two apart.
pub fn take_tape(tape: &mut [u8]) -> Result<Option<usize>, Cut> {
    let Some(four) = take_head()? else {
        return Ok(None);
    };
    let long = u32::from_le_bytes(four) as usize;
    match tape.get_mut(..long) {
        Some(whole) => take(whole)?,
        None => pass_over(long)?,
    }
    Ok(Some(long))
}

// Turns by their number, each putting its lines on the page and writing it out where it may fill, until one finds the input at its end
// or cut. A turn tells whether there was something.
pub fn play<F: FnMut(&mut Page, u64) -> Result<bool, Cut>>(page: &mut Page, mut turn: F)
    requires { F.IsAlwaysCallable turn }
{
    for k in 1..=1000000 {
        match turn(page, k) {
            Ok(true) => {}
            Ok(false) => break,
            Err(Cut) => {
                cut(page);
                break;
            }
        }
    }
    flush(page);
}
