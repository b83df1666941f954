// Appending a reading. Everything is read and checked before anything is written.
ghost use Rattle.std.specs.Prelude.{◌≡◌, ◌+◌, ◌*◌, ◌/◌, ◌%◌, ◌<◌, IfOk, slice_set};
ghost use Rattle.firing_log.specs.Steps.{appended, grown, last_shape};
ghost use Rattle.firing_log.specs.Of.{state_of, SameSlices, Stands, Grows, HasRoom};

use crate::backed::Backed;
use crate::candidate::Candidate;
use crate::fault::LogFault;
use crate::memory::Memory;
use crate::row::Growth;
use crate::sheet::Sheet;
use reading::Reading;
use shape::{Answerer, shape_number_with};

impl Sheet {
    // Puts a reading at the log's end, and gives the new count.
    pub fn append<K: Reading, S: Answerer>(
        &mut self,
        memory: &mut Memory<'_, K>,
        answerer: &S,
        reading: K,
    ) -> Result<usize, LogFault>
        ensures result { result ≡ (appended K.Reading.colder (S.Answerer.seats answerer.now) (state_of self.old memory.old) reading).0 }
        ensures after { state_of self.new memory.new ≡ (appended K.Reading.colder (S.Answerer.seats answerer.now) (state_of self.old memory.old) reading).1 }
        ensures same { SameSlices memory.old memory.new }
    {
        let growth = self.growth(memory, answerer, reading)?;
        growth.write_row(memory.entries, self.count / 8);
        Ok(self.put(memory, reading, growth.number))
    }

    // What an append writes, unless it is refused.
    // A function of its own: beside the writes, the loan of the memory that `Backed` holds is not known to be over, and the proof does not close.
    fn growth<K: Reading, S: Answerer>(
        &self,
        memory: &Memory<'_, K>,
        answerer: &S,
        reading: K,
    ) -> Result<Growth, LogFault>
        ensures grows { Grows (appended K.Reading.colder (S.Answerer.seats answerer.now) (state_of self.now memory.now) reading) K.Reading.colder (state_of self.now memory.now) reading result }
        ensures room { IfOk result (λ _. HasRoom (state_of self.now memory.now)) }
    {
        let log = self.backed_by(memory)?;
        if self.count == self.capacity {
            return Err(LogFault::Full);
        }
        let number = log.number_with(reading);
        if self.count % 8 != 7 {
            return Ok(Growth { number, row: None });
        }
        let row = log.row_of(log.first_with(answerer, reading, number))?;
        Ok(Growth {
            number,
            row: Some(row),
        })
    }

    // Writes the reading and its block's number.
    fn put<K: Reading>(&mut self, memory: &mut Memory<'_, K>, reading: K, number: u16) -> usize
        requires { HasRoom (state_of self.old memory.old) }
        ensures result { result ≡ self.old.count + 1 }
        ensures after { state_of self.new memory.new ≡ grown K.Reading.colder (state_of self.old memory.old) reading number memory.old.entries.now }
        ensures same { SameSlices memory.old memory.new }
    {
        let count = self.count;
        memory.readings[count] = reading;
        memory.shapes[count / 8] = number;
        self.count = count + 1;
        self.count
    }
}

// That there is room for one more stands in these contracts and in no type: it holds of a log for the one moment before a reading is put there.
impl<K: Reading> Backed<'_, K> {
    // The number of the last block with a reading more.
    fn number_with(&self, reading: K) -> u16
        requires room { self.now.sheet.now.count < self.now.sheet.now.capacity }
        ensures number { result ≡ last_shape K.Reading.colder (slice_set self.now.readings.now self.now.sheet.now.count reading) (self.now.sheet.now.count + 1) }
        ensures bound { result < 1430 }
    {
        let count = self.sheet.count;
        shape_number_with(&self.readings[8 * (count / 8)..count], reading)
    }

    // The first coldest place of the block that a reading more fills, and that then has this number.
    fn first_with<S: Answerer>(&self, answerer: &S, reading: K, number: u16) -> Candidate<K>
        requires room { self.now.sheet.now.count < self.now.sheet.now.capacity }
        requires fills { self.now.sheet.now.count % 8 ≡ 7 }
        requires number { number < 1430 }
        ensures place { result.place ≡ 8 * (self.now.sheet.now.count / 8) + S.Answerer.seats answerer.now number 0 7 }
        ensures stands { Stands (slice_set self.now.readings.now self.now.sheet.now.count reading) result }
    {
        let count = self.sheet.count;
        let place = 8 * (count / 8) + answerer.first_coldest(number, 0, 7).unwrap();
        if place == count {
            return Candidate { place, reading };
        }
        self.at(place)
    }
}
