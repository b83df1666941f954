// Giving a clearance, in a fixed number of steps: the window is asked for its coldest reading, and not scanned.
ghost use Rattle.std.specs.Prelude.{◌≡◌};
ghost use Rattle.std.specs.Result.{result_map_both};
ghost use Rattle.firing_log.specs.Runs.{Reached};
ghost use Rattle.firing_log.specs.View.{seen};
ghost use Rattle.bake.specs.Of.{clearance_count};
ghost use Rattle.bake.specs.Runs.{Clearing};
ghost use Rattle.bake.specs.Steps.{cleared};

use crate::fault::BakeFault;
use crate::tokens::Clearance;
use firing_log::LogView;
use reading::Reading;
use shape::Answerer;

// Looks at the last `window` readings of a log, of which none may be colder than the set one.
pub fn clear<K: Reading, S: Answerer>(
    log: LogView<'_, K, S>,
    window: usize,
    set: K,
) -> Result<Clearance, BakeFault>
    ensures value { result_map_both clearance_count (λ fault. fault) result ≡ cleared K.Reading.colder (S.Answerer.seats log.entry.answerer.now) (seen log.entry) window set }
    ensures reached { Reached K.Reading.colder (S.Answerer.seats log.entry.answerer.now) (seen log.entry) → Clearing K.Reading.colder (seen log.entry) window set (result_map_both clearance_count (λ fault. fault) result) }
{
    kept_count(log, window, set).map(|count| Clearance { count })
}

// The rule on numbers, for a caller that keeps its tokens otherwise: the count that the clearance keeps.
pub fn kept_count<K: Reading, S: Answerer>(
    log: LogView<'_, K, S>,
    window: usize,
    set: K,
) -> Result<usize, BakeFault>
    ensures { result ≡ cleared K.Reading.colder (S.Answerer.seats log.entry.answerer.now) (seen log.entry) window set }
{
    if log.is_short() {
        return Err(BakeFault::ShortMemory);
    }
    let count = log.count();
    if window == 0 || window > count {
        return Err(BakeFault::Window);
    }
    let Ok((_, coldest)) = log.coldest(count - window, count - 1) else {
        // Within the count the log refuses for its index numbers alone.
        return Err(BakeFault::Index);
    };
    if coldest.is_colder(set) {
        return Err(BakeFault::TooCold);
    }
    Ok(count)
}
