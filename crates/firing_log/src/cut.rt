// Cutting a log back.
ghost use Rattle.std.specs.Prelude.{◌≡◌, ◌%◌, ◌/◌, ◌<◌, ◌≤◌, length, IfOk, IfSome, MatchOption};
ghost use Rattle.firing_log.specs.Steps.{cut, last_shape};
ghost use Rattle.firing_log.specs.Of.{state_of, SameSlices, Cuts};

use crate::backed::Backed;
use crate::fault::LogFault;
use crate::memory::Memory;
use crate::sheet::Sheet;
use reading::Reading;
use shape::shape_number;

impl Sheet {
    // Keeps the first n readings, and gives the new count.
    pub fn cut<K: Reading>(
        &mut self,
        memory: &mut Memory<'_, K>,
        n: usize,
    ) -> Result<usize, LogFault>
        ensures result { result ≡ (cut K.Reading.colder (state_of self.old memory.old) n).0 }
        ensures after { state_of self.new memory.new ≡ (cut K.Reading.colder (state_of self.old memory.old) n).1 }
        ensures same { SameSlices memory.old memory.new }
    {
        if let Some(number) = self.number_kept(memory, n)? {
            memory.shapes[n / 8] = number;
        }
        self.count = n;
        Ok(n)
    }

    // What a cut writes, unless it is refused: the number of the last block that the first n readings begin, unless they fill it.
    // A function of its own, as `growth` of an append is, since beside the write the loan is not known to be over.
    fn number_kept<K: Reading>(
        &self,
        memory: &Memory<'_, K>,
        n: usize,
    ) -> Result<Option<u16>, LogFault>
        ensures cuts { Cuts (cut K.Reading.colder (state_of self.now memory.now) n) (state_of self.now memory.now) n result }
        ensures room { IfOk result (λ number. IfSome number (λ _. n / 8 < length memory.now.shapes.now)) }
    {
        let log = self.backed_by(memory)?;
        if n > self.count {
            return Err(LogFault::CutLength);
        }
        Ok(log.last_number(n))
    }
}

impl<K: Reading> Backed<'_, K> {
    // The number of the last block that the first n readings begin, unless they fill it.
    fn last_number(&self, n: usize) -> Option<u16>
        requires { n ≤ self.now.sheet.now.count }
        ensures { MatchOption result (n % 8 ≡ 0) (λ number. (0 < n % 8) × (number ≡ last_shape K.Reading.colder self.now.readings.now n)) }
    {
        if n % 8 == 0 {
            return None;
        }
        Some(shape_number(&self.readings[8 * (n / 8)..n]))
    }
}
