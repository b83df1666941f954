// Where the stone was first coldest between two places, in a fixed number of steps:
// two edge blocks by the answerer, and the whole blocks between by two overlapping entries of the sparse table.
ghost use Rattle.std.specs.Prelude.{◌≡◌, ℕ, ◌+◌, ◌-◌, ◌*◌, ◌<◌, ◌≤◌, if◌then◌else◌, Ok, Err, nat_lt, slice_index};
ghost use Rattle.firing_log.specs.Steps.{coldest, searched, across, level};
ghost use Rattle.firing_log.specs.Of.{state_of, state_behind, Found, Chosen, Stands};

use crate::backed::Backed;
use crate::candidate::Candidate;
use crate::fault::LogFault;
use crate::memory::Memory;
use crate::sheet::Sheet;
use reading::Reading;
use shape::Answerer;

impl Sheet {
    // The first coldest place of from..=to together with the reading there.
    pub fn coldest<K: Reading, S: Answerer>(
        &self,
        memory: &Memory<'_, K>,
        answerer: &S,
        from: usize,
        to: usize,
    ) -> Result<(usize, K), LogFault>
        ensures { Found memory.now.readings.now (coldest K.Reading.colder (S.Answerer.seats answerer.now) (state_of self.now memory.now) from to) result }
    {
        let log = self.backed_by(memory)?;
        if from > to {
            return Err(LogFault::Backwards);
        }
        if to >= self.count {
            return Err(LogFault::Beyond);
        }
        let first = log.search(answerer, from, to)?;
        Ok((first.place, first.reading))
    }
}

impl<K: Reading> Backed<'_, K> {
    fn search<S: Answerer>(
        &self,
        answerer: &S,
        from: usize,
        to: usize,
    ) -> Result<Candidate<K>, LogFault>
        requires range { from ≤ to }
        requires within { to < self.now.sheet.now.count }
        ensures { Chosen self.now.readings.now (searched K.Reading.colder (S.Answerer.seats answerer.now) (state_behind self.now) from to) result }
    {
        let first_block = from / 8;
        let last_block = to / 8;
        if first_block == last_block {
            return self.in_block(answerer, first_block, from % 8, to % 8);
        }
        let first = self.in_block(answerer, first_block, from % 8, 7)?;
        let last = self.in_block(answerer, last_block, 0, to % 8)?;
        if last_block - first_block == 1 {
            return Ok(first.or_colder(last));
        }
        self.across(first_block, last_block, first, last)
    }

    // From a place of one block to a place of a later one, with whole blocks between.
    fn across(
        &self,
        first_block: usize,
        last_block: usize,
        first: Candidate<K>,
        last: Candidate<K>,
    ) -> Result<Candidate<K>, LogFault>
        requires apart { first_block + 1 < last_block }
        requires within { 8 * last_block ≤ self.now.sheet.now.count }
        requires first_stands { Stands self.now.readings.now first }
        requires last_stands { Stands self.now.readings.now last }
        ensures { Chosen self.now.readings.now (across K.Reading.colder (state_behind self.now) first_block last_block (level (last_block - first_block - 1)) first.place last.place) result }
    {
        // The logarithm is a `u32`, which has no `From` to `usize`.
        let level = (last_block - first_block - 1).ilog2() as usize;
        let left = self.entry(first_block + (1 << level), level)?;
        let right = self.entry(last_block - 1, level)?;
        Ok(first.or_colder(left).or_colder(right).or_colder(last))
    }

    // The answerer's place from..=to of a block, refused where the block's number is above 1,429.
    fn in_block<S: Answerer>(
        &self,
        answerer: &S,
        block: usize,
        from: usize,
        to: usize,
    ) -> Result<Candidate<K>, LogFault>
        requires range { (from ≤ to) × (to < 8) }
        requires within { 8 * block + to < self.now.sheet.now.count }
        ensures { Chosen self.now.readings.now (if nat_lt (slice_index self.now.shapes.now block) 1430 then Ok (8 * block + S.Answerer.seats answerer.now (slice_index self.now.shapes.now block) from to) else Err LogFault.Index) result }
    {
        // The range lies in the block, so that only the number can be refused.
        let place = answerer
            .first_coldest(self.shapes[block], from, to)
            .map_err(|_| LogFault::Index)?;
        Ok(self.at(8 * block + place))
    }
}
