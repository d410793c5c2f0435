// The host half: a command becomes samples, and what the device drives becomes bytes. Nothing is asked of the caller.
#![tactic(auto)]

ghost use Rattle.std.specs.Prelude.{◌≡◌};
ghost use Rattle.paper.specs.Building.{build_of};
ghost use Rattle.paper.specs.Collecting.{collect_of};
ghost use Rattle.host_order.specs.Orders.{order_as};
ghost use Rattle.host.specs.Results.{built_as, gathered_as, NeverDone};

use host_build::put_built;
use host_gather::put_collected;
use host_order::{Order, kind_asked};
use record::{Answer, mode_wires};
use units::{Bytes, Clocks};

// The samples of a command, and how many clocks they are; or the answer that refuses it, and the buffer is as it was. A
// read has a number of bytes in the order, a write has its bytes in `written`. The error is an `Answer` that is never `Done`
// (`NeverDone`), here and in the refusals: an enum of them would be turned into an `Answer` again for C.
pub fn build(o: Order, written: &[u8], samples: &mut [u8]) -> Result<Clocks, Answer>
    ensures told { built_as result samples.new ≡ build_of (order_as o written.now) samples.old }
    ensures refused { NeverDone result }
{
    let k = kind_asked(o);
    host_build::refusal(o, k, written, samples)?;
    Ok(put_built(o, k, written, samples))
}

// The bytes of what the device drove on so many wires, and how many they are; or the answer that refuses it, and the
// buffer is as it was.
pub fn gather(wires: u8, driven: &[u8], bytes: &mut [u8]) -> Result<Bytes, Answer>
    ensures told { gathered_as result bytes.new ≡ collect_of wires driven.now bytes.old }
    ensures refused { NeverDone result }
{
    host_gather::refusal(wires, driven, bytes)?;
    Ok(put_collected(mode_wires(wires), driven, bytes))
}
