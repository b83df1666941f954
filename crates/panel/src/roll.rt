// A log together with the memory that it is kept in.
ghost use Rattle.std.specs.Prelude.{◌≡◌, replicate, Some};
ghost use Rattle.firing_log.specs.Steps.{appended, cut};
ghost use Rattle.firing_log.specs.Strip.{strip_written};
ghost use Rattle.panel.specs.Of.{roll_state};
ghost use Rattle.panel.specs.Replies.{asked, written};

use crate::written::{STRIP_ROOM, WrittenStrip};
use console::Found;
use firing_log::{LogFault, Memory, Sheet};
use reading::Reading;
use shape::Answerer;

#[derive(Drop)]
pub struct Roll<'a, K> {
    pub sheet: Sheet,
    pub memory: Memory<'a, K>,
}

impl<'a, K: Reading> Roll<'a, K> {
    pub(crate) fn append<S: Answerer>(
        &mut self,
        answerer: &S,
        reading: K,
    ) -> Result<usize, LogFault>
        ensures result { result ≡ (appended K.Reading.colder (S.Answerer.seats answerer.now) (roll_state self.old) reading).0 }
        ensures after { roll_state self.new ≡ (appended K.Reading.colder (S.Answerer.seats answerer.now) (roll_state self.old) reading).1 }
    {
        self.sheet.append(&mut self.memory, answerer, reading)
    }

    pub(crate) fn cut(&mut self, length: u32) -> Result<usize, LogFault>
        ensures result { result ≡ (cut K.Reading.colder (roll_state self.old) length).0 }
        ensures after { roll_state self.new ≡ (cut K.Reading.colder (roll_state self.old) length).1 }
    {
        // `usize` has no `From<u32>`.
        self.sheet.cut(&mut self.memory, length as usize)
    }

    // Where the log was first coldest from one place to another.
    pub(crate) fn ask<S: Answerer>(
        &self,
        answerer: &S,
        from: u32,
        to: u32,
    ) -> Result<Found<K>, LogFault>
        ensures { asked K.Reading.colder (S.Answerer.seats answerer.now) (roll_state self.now) from to ≡ Some result }
    {
        let (place, reading) = self
            .sheet
            .coldest(&self.memory, answerer, from as usize, to as usize)?;
        Ok(Found { place, reading })
    }

    pub(crate) fn write_strip(&self) -> Result<WrittenStrip, LogFault>
        ensures { result ≡ written (strip_written K.Reading.colder (roll_state self.now) (replicate 514 0)) }
    {
        let mut output = [0; STRIP_ROOM];
        let len = self.sheet.write_strip(&self.memory, &mut output)?;
        Ok(WrittenStrip { output, len })
    }
}
