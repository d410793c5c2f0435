// Probes of the device, one after the other on standard input, and for each one line with its answer, its counts, the image that
// it left, and digests of memory, area and output. The second program prints the same.
#![tactic(auto)]

use against_input::{Cut, play, take, take_head};
use against_probes::{Left, Lent, Probe, admitted, called, put_line};
use bench_columns::room;
use parts::LARGEST_MEMORY;
use text::{Page, flush_full};

// Room for the output of any probe: a generated one lends a few bytes more than 65,536.
const OUTPUT: usize = 131072;

// Probe `k`, where there is one, with its image, where it brings one, and its samples. What it leaves the next one may go on from. No more
// of the input is taken than is asked for so far: where a probe is cut off, nothing is waited for behind it.
fn turn(page: &mut Page, k: u64, left: &mut Option<Left>, lent: Lent) -> Result<bool, Cut> {
    let Some(head) = take_head()? else {
        return Ok(false);
    };
    let p = Probe::try_from(head)?;
    let from = admitted(p, *left)?;
    let t = lent.imaged(from.image)?;
    if !p.is_next {
        take(t.image)?;
    }
    let t = t.sized(from.image, p.lengths)?;
    take(t.samples)?;
    let (r, t) = called(p, t);
    put_line(page, k, r, &t);
    flush_full(page);
    *left = Some(from);
    Ok(true)
}

fn main() {
    let mut image = [0; 256];
    let mut memory = room::<LARGEST_MEMORY>();
    let mut area = io::buffer();
    let mut samples = io::large_buffer();
    let mut output = room::<OUTPUT>();
    let mut text = io::large_buffer();
    let mut left = None;
    play(&mut Page::begun(&mut text, 0), |page, k| {
        let lent = Lent {
            image: &mut image,
            memory: &mut memory,
            area: &mut area,
            samples: &mut samples,
            output: &mut output,
        };
        turn(page, k, &mut left, lent)
    });
}
