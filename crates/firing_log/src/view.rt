// A log as it can be asked.
ghost use Rattle.std.specs.Prelude.{◌≡◌};
ghost use Rattle.firing_log.specs.Of.{Found};
ghost use Rattle.firing_log.specs.State.{short};
ghost use Rattle.firing_log.specs.Steps.{coldest};
ghost use Rattle.firing_log.specs.View.{seen};

use crate::fault::LogFault;
use crate::memory::Memory;
use crate::open;
use crate::sheet::Sheet;
use reading::Reading;
use shape::Answerer;

// What a question to a log needs: its sheet, its memory and an answerer for its blocks.
#[derive_where(Clone, Copy)]
pub struct LogView<'a, K, S> {
    pub sheet: &'a Sheet,
    pub memory: &'a Memory<'a, K>,
    pub answerer: &'a S,
}

impl<K: Reading, S: Answerer> LogView<'_, K, S> {
    // How many readings the log holds.
    pub fn count(self) -> usize
        ensures { result ≡ (seen self.entry).count }
    {
        self.sheet.count()
    }

    // Whether the memory is too short for the log's capacity, so that every question is refused.
    pub fn is_short(self) -> bool
        ensures { result ≡ short (seen self.entry) }
    {
        open::is_short(self.sheet.capacity, self.memory)
    }

    // The first coldest place of from..=to together with the reading there.
    pub fn coldest(self, from: usize, to: usize) -> Result<(usize, K), LogFault>
        ensures { Found self.entry.memory.now.readings.now (coldest K.Reading.colder (S.Answerer.seats self.entry.answerer.now) (seen self.entry) from to) result }
    {
        self.sheet.coldest(self.memory, self.answerer, from, to)
    }
}
