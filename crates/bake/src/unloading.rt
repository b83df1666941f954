// Ending a bake.
ghost use Rattle.std.specs.Prelude.{◌≡◌, IfErr};
ghost use Rattle.std.specs.Result.{result_map_both};
ghost use Rattle.firing_log.specs.Runs.{Reached};
ghost use Rattle.firing_log.specs.View.{seen};
ghost use Rattle.bake.specs.Of.{start_of};
ghost use Rattle.bake.specs.Runs.{Unloading};
ghost use Rattle.bake.specs.Steps.{unloaded};

use crate::fault::{BakeFault, Refused};
use crate::tokens::Bake;
use firing_log::LogView;
use reading::Reading;
use shape::Answerer;

// What is known of a bake that was unloaded: the places of its first, last and first coldest reading. It crosses to C as it is.
#[repr(C)]
#[derive(Clone, Copy, PartialEq, Eq, Debug)]
pub struct Record {
    pub start: usize,
    pub last: usize,
    pub coldest: usize,
}

impl Bake {
    // Ends the bake with its record; a refusal hands the bake back.
    pub fn unload<K: Reading, S: Answerer>(
        self,
        log: LogView<'_, K, S>,
    ) -> Result<Record, Refused<Bake>>
        ensures value { result_map_both (λ made. made) (λ back. back.fault) result ≡ unloaded K.Reading.colder (S.Answerer.seats log.entry.answerer.now) (seen log.entry) (start_of self) }
        ensures reached { Reached K.Reading.colder (S.Answerer.seats log.entry.answerer.now) (seen log.entry) → Unloading K.Reading.colder (seen log.entry) (start_of self) (result_map_both (λ made. made) (λ back. back.fault) result) }
        ensures refused { IfErr result (λ back. back.token ≡ self) }
    {
        // No `map` and `map_err` here: the bake is spent in one case and handed back in the other, and two closures cannot both hold it.
        match record_from(self.start, log) {
            Ok(record) => {
                let Bake { start: _ } = self;
                Ok(record)
            }
            Err(fault) => Err(Refused { fault, token: self }),
        }
    }

    // Ends the bake without a record, and gives its start.
    pub fn abandon(self) -> usize
        ensures { result ≡ start_of self }
    {
        let Bake { start } = self;
        start
    }
}

// The rule on numbers: the record of a bake with this start that were unloaded now.
pub fn record_from<K: Reading, S: Answerer>(
    start: usize,
    log: LogView<'_, K, S>,
) -> Result<Record, BakeFault>
    ensures { result ≡ unloaded K.Reading.colder (S.Answerer.seats log.entry.answerer.now) (seen log.entry) start }
{
    if log.is_short() {
        return Err(BakeFault::ShortMemory);
    }
    let count = log.count();
    if count < start {
        return Err(BakeFault::CutBack);
    }
    if count == start {
        return Err(BakeFault::NothingBaked);
    }
    let last = count - 1;
    let Ok((coldest, _)) = log.coldest(start, last) else {
        // Within the count the log refuses for its index numbers alone.
        return Err(BakeFault::Index);
    };
    Ok(Record {
        start,
        last,
        coldest,
    })
}
