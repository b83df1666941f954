// Loading a bake.
ghost use Rattle.std.specs.Prelude.{◌≡◌, IfErr};
ghost use Rattle.std.specs.Result.{result_map_both};
ghost use Rattle.bake.specs.Of.{clearance_count, start_of, sheet_count};
ghost use Rattle.bake.specs.Steps.{loaded};

use crate::fault::{BakeFault, Refused};
use crate::tokens::{Bake, Clearance};
use firing_log::Sheet;

// How many readings may come between a clearance and its load.
const LONGEST_WAIT: usize = 60;

impl Clearance {
    // Loads the one bake of this clearance; a refusal hands the clearance back.
    pub fn load(self, sheet: &Sheet) -> Result<Bake, Refused<Clearance>>
        ensures value { result_map_both start_of (λ back. back.fault) result ≡ loaded (clearance_count self) (sheet_count sheet.now) }
        ensures refused { IfErr result (λ back. back.token ≡ self) }
    {
        start_at(self.count, sheet)
            .map(|start| Bake { start })
            .map_err(|fault| Refused { fault, token: self })
    }
}

// The rule on numbers: the start of a bake that were loaded now, on a clearance that keeps this count.
pub fn start_at(kept: usize, sheet: &Sheet) -> Result<usize, BakeFault>
    ensures { result ≡ loaded kept (sheet_count sheet.now) }
{
    let count = sheet.count();
    if count < kept {
        return Err(BakeFault::CutBack);
    }
    if count - kept > LONGEST_WAIT {
        return Err(BakeFault::Late);
    }
    Ok(count)
}
