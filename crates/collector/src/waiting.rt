//! A collection from its begin to its end. It waits until no hook is inside the phase that it ends.

ghost use Rattle.std.specs.Prelude.{◌≡◌, ◌<◌, true, false, None, OnOk, OnErr, IfOk, IfErr};
ghost use Rattle.grace_rows.specs.Seats.{is_clear};
ghost use Rattle.collector.specs.Collectors.{IsLevel, HasSameSeats, gathered_by};
ghost use Rattle.collector.specs.Collections.{IsCause, IsOf, began_with, Collected};

use crate::collecting::Collecting;
use crate::collector::{CollectError, Collector};
use grace_rows::{Grace, Paired};
use std::alloc::Global;
use std::sync::Wait;
use std::thread::yield_now;
use total_rows::Totals;

/// Polls until nobody is inside the phase that ended.
pub(crate) fn wait_until_clear<R: Wait>(
    rt: &R,
    collecting: Collecting,
    paired: &Paired,
) -> Collecting
    requires from { IsOf paired.now collecting }
    requires waits { is_clear collecting.flipped ≡ false }
    ensures from { IsOf paired.now result }
    ensures same { began_with result ≡ began_with collecting }
    ensures clear { is_clear result.flipped ≡ true }
{
    let mut collecting = collecting;
    'polling: for _ in rt.forever() {
        match collecting.poll(paired) {
            Grace::Clear => return collecting,
            Grace::Inside(_) => yield_now(),
        }
    }
    unreachable!()
}

/// Collects: ends the live phase, waits until all that entered it have left it, and puts what it counted on the
/// shelf. Answers the phase that ended. It may wait, and its return is not promised.
///
/// `PhasesSpent` comes exactly where the phase is 1,024, which is looked at before memory is tried. Where
/// nothing is collected, the collector comes back as it was.
pub fn collect<R: Wait>(
    rt: &R,
    alloc: Global,
    collector: Collector,
    paired: &Paired,
    apps: &Totals,
) -> (Collector, Result<u32, CollectError>)
    requires from { (collector.seat.table ≡ paired.now.table) × (collector.apps.table ≡ apps.now.table) }
    requires level { IsLevel (gathered_by collector) }
    ensures ok { IfOk result.1 (λ phase. Collected (gathered_by collector) phase (gathered_by result.0)) }
    ensures early { OnOk result.1 (collector.seat.phase < 1024) }
    ensures handed_back { OnErr result.1 (result.0 ≡ collector) }
    ensures cause { IfErr result.1 (IsCause collector.seat.phase) }
    ensures level { IsLevel (gathered_by result.0) }
    ensures seats { HasSameSeats collector result.0 }
{
    let phase = collector.phase();
    match collector.begin(alloc, paired) {
        Ok(collecting) => {
            let clear = wait_until_clear(rt, collecting, paired);
            (clear.finish(paired, apps, None), Ok(phase))
        }
        Err((collector, error)) => (collector, Err(error)),
    }
}
