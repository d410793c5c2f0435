// A stretch of clocks fed to an unfinished transaction: what each drives goes to the output, and what they
// leave comes back.
#![tactic(auto)]

ghost use Rattle.std.specs.Prelude.{◌+◌};
ghost use Rattle.contract_words.specs.Words.{run_as};
ghost use Rattle.machine_run.specs.Fed.{Feedable, Fed};

use machine_clock::{drive, step};
use progress::Progress;
use record::Device;

// The output is written by the index of the sample: in a `zip` with `output.iter_mut()` it stands inside the iterator, where the
// loop's invariant, `Running`, has no output to speak of, and the proof does not close.
pub fn feed(
    d: Device,
    p: Progress,
    memory: &mut [u8],
    area: &mut [u8],
    samples: &[u8],
    output: &mut [u8],
) -> Progress
    requires { Feedable d p samples.now output.old }
    ensures { Fed d (run_as p memory.old area.old) samples.now output.old (run_as result memory.new area.new) output.new }
{
    let h = machine_phases::terms_of(d);
    let mut q = p;
    for (i, x) in samples.iter().enumerate() {
        output[i] = drive(d, q, memory, area);
        q = step(h, q, *x, memory, area);
    }
    q
}
