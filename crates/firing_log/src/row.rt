// The sparse table over full blocks: the entries of one block more.
ghost use Rattle.std.specs.Prelude.{◌≡◌, ℕ, ◌+◌, ◌*◌, ◌/◌, ◌<◌, ◌≤◌, List, length};
ghost use Rattle.reading.specs.Coldest.{places};
ghost use Rattle.firing_log.specs.Steps.{entries_of, level};
ghost use Rattle.firing_log.specs.Of.{Stands, SameBelow, Rowed};

use crate::backed::Backed;
use crate::candidate::Candidate;
use crate::fault::LogFault;
use crate::memory::LEVELS;
use reading::Reading;

impl<K: Reading> Backed<'_, K> {
    // The entries of the block that one reading more fills, whose first coldest place is `first`; the clause speaks of the readings as they will be.
    pub(crate) fn row_of(&self, first: Candidate<K>) -> Result<[u16; LEVELS], LogFault>
        requires room { self.now.sheet.now.count < self.now.sheet.now.capacity }
        ensures { (readings : List K) → Stands readings first → SameBelow (8 * (self.now.sheet.now.count / 8)) self.now.readings.now readings
            → Rowed (self.now.sheet.now.count / 8) (entries_of (places K.Reading.colder readings) self.now.entries.now (self.now.sheet.now.count / 8) first.place) result }
    {
        let block = self.sheet.count / 8;
        // An `ArrayVec` stores its length at each push, and an append then takes 1.12 times plain C, above the aim of 1.1. The block tells how much of the array is used.
        let mut row = [0; LEVELS];
        // A place is below 32,768: there is nothing that a `try_from` would refuse.
        row[0] = first.place as u16;
        let mut best = first;
        // The level is a number in its own right: the exponent of how many blocks the entry covers.
        for level in 0..top_level(block) {
            best = self.entry(block - (1 << level), level)?.or_colder(best);
            row[level + 1] = best.place as u16;
        }
        Ok(row)
    }
}

// The level of a block's last entry.
fn top_level(block: usize) -> usize
    requires { block < 4096 }
    ensures level { result ≡ level (block + 1) }
    ensures few { result < 13 }
{
    // The logarithm is a `u32`, which has no `From` to `usize`.
    (block + 1).ilog2() as usize
}

// What an append writes besides the reading: its block's number, and the entries of the block that it fills.
#[derive(Clone, Copy)]
pub(crate) struct Growth {
    pub(crate) number: u16,
    pub(crate) row: Option<[u16; LEVELS]>,
}

impl Growth {
    ghost use Rattle.firing_log.specs.Of.{entries_with};

    // Writes the entries of a block, as many as it has levels.
    pub(crate) fn write_row(&self, entries: &mut [u16], block: usize)
        requires few { block < 4096 }
        requires within { 13 * block + 13 ≤ length entries.old }
        ensures { entries.new ≡ entries_with entries.old block self.now.row }
    {
        if let Some(row) = &self.row {
            let row = &row[..=top_level(block)];
            entries[LEVELS * block..LEVELS * block + row.len()].copy_from_slice(row);
        }
    }
}
