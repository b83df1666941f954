// A sheet with memory that is long enough for it: what a call works on once it has checked the memory.
ghost use Rattle.std.specs.Prelude.{◌≡◌, ◌*◌, ◌≤◌, length};
ghost use Rattle.firing_log.specs.State.{blocks};

use crate::candidate::Candidate;
use crate::fault::LogFault;
use crate::memory::{LEVELS, Memory};
use crate::open::is_short;
use crate::sheet::Sheet;
use reading::Reading;

#[derive(Drop)]
pub(crate) struct Backed<'a, K> {
    pub(crate) sheet: &'a Sheet,
    pub(crate) readings: &'a [K],
    pub(crate) shapes: &'a [u16],
    pub(crate) entries: &'a [u16],
    ghost readings_long: { sheet.now.capacity ≤ length readings.now },
    ghost shapes_long: { blocks sheet.now.capacity ≤ length shapes.now },
    ghost entries_long: { 13 * blocks sheet.now.capacity ≤ length entries.now },
}

impl Sheet {
    ghost use Rattle.firing_log.specs.Of.{BacksOrShort};

    // This sheet with memory, unless it is too short.
    pub(crate) fn backed_by<'a, K>(
        &'a self,
        memory: &'a Memory<'_, K>,
    ) -> Result<Backed<'a, K>, LogFault>
        ensures { BacksOrShort self.now memory.now result }
    {
        if is_short(self.capacity, memory) {
            return Err(LogFault::ShortMemory);
        }
        Ok(Backed {
            sheet: self,
            readings: &*memory.readings,
            shapes: &*memory.shapes,
            entries: &*memory.entries,
        })
    }
}

impl<K: Reading> Backed<'_, K> {
    ghost use Rattle.std.specs.Prelude.{ℕ, ◌+◌, ◌-◌, ◌^◌, ◌<◌, if◌then◌else◌, Ok, Err, slice_index};
    ghost use Rattle.firing_log.specs.Steps.{in_blocks, entry_at};
    ghost use Rattle.firing_log.specs.Of.{Chosen, Stands};

    // A place together with the reading there.
    pub(crate) fn at(&self, place: usize) -> Candidate<K>
        requires { place < self.now.sheet.now.count }
        ensures place { result.place ≡ place }
        ensures stands { Stands self.now.readings.now result }
    {
        Candidate {
            place,
            reading: self.readings[place],
        }
    }

    // The place that an entry names, refused unless it lies in the 2^level blocks that end with the entry's block.
    pub(crate) fn entry(&self, block: usize, level: usize) -> Result<Candidate<K>, LogFault>
        requires full { 8 * block + 8 ≤ self.now.sheet.now.count }
        requires level { 2 ^ level ≤ block + 1 }
        ensures { Chosen self.now.readings.now (if in_blocks (block + 1 - 2 ^ level) (block + 1) (slice_index self.now.entries.now (entry_at block level)) then Ok (slice_index self.now.entries.now (entry_at block level)) else Err LogFault.Index) result }
    {
        let place = usize::from(self.entries[LEVELS * block + level]);
        if place / 8 > block || place / 8 + (1 << level) <= block {
            return Err(LogFault::Index);
        }
        Ok(self.at(place))
    }
}
