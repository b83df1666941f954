// Going on with a log whose two numbers the caller kept.
ghost use Rattle.std.specs.Prelude.{◌≡◌, true, MatchOption};
ghost use Rattle.firing_log.specs.Resume.{never_given, Resumed};

use crate::sheet::{MOST_READINGS, Sheet};

impl Sheet {
    // The sheet with these two numbers, unless no call gives one.
    pub fn resume(capacity: usize, count: usize) -> Option<Sheet>
        ensures { MatchOption result (never_given capacity count ≡ true) (λ sheet. Resumed capacity count sheet) }
    {
        if capacity == 0 || capacity > MOST_READINGS || count > capacity {
            return None;
        }
        Some(Sheet { capacity, count })
    }
}
