// The log of the oven, and what each command does to it and to the hand.
ghost use Rattle.std.specs.Prelude.{◌≡◌};
ghost use Rattle.firing_log.specs.Of.{state_of, SameSlices};
ghost use Rattle.shift.specs.Hands.{held};
ghost use Rattle.shift.specs.Plays.{counted, played};

use crate::command::Command;
use crate::hand::Hand;
use crate::refusal::Refusal;
use crate::reply::Reply;
use firing_log::{LogFault, LogView, Memory, Sheet};
use reading::Reading;
use shape::Answerer;

#[derive(Drop)]
pub struct Oven<'a, K, S> {
    pub sheet: Sheet,
    pub memory: Memory<'a, K>,
    pub answerer: S,
}

impl<K: Reading, S: Answerer> Oven<'_, K, S> {
    pub fn play(&mut self, hand: Hand, command: Command<K>) -> (Hand, Result<Reply, Refusal>)
        ensures value { (held result.0, result.1) ≡ (played K.Reading.colder (S.Answerer.seats self.old.answerer) (state_of self.old.sheet self.old.memory) (held hand) command).0 }
        ensures after { state_of self.new.sheet self.new.memory ≡ (played K.Reading.colder (S.Answerer.seats self.old.answerer) (state_of self.old.sheet self.old.memory) (held hand) command).1 }
        ensures same_slices { SameSlices self.old.memory self.new.memory }
        ensures same_answerer { self.new.answerer ≡ self.old.answerer }
    {
        match command {
            Command::Append { reading } => {
                let answer = self.sheet.append(&mut self.memory, &self.answerer, reading);
                (hand, counted(answer))
            }
            Command::Cut { length } => (hand, counted(self.sheet.cut(&mut self.memory, length))),
            Command::Clear { window, set } => hand.clear(self.log(), window, set),
            Command::Load => hand.load(&self.sheet),
            Command::Unload => hand.unload(self.log()),
            Command::Abandon => hand.abandon(),
        }
    }

    fn log(&self) -> LogView<'_, K, S>
        ensures sheet { result.sheet.now ≡ self.now.sheet }
        ensures memory { result.memory.now ≡ self.now.memory }
        ensures answerer { result.answerer.now ≡ self.now.answerer }
    {
        LogView {
            sheet: &self.sheet,
            memory: &self.memory,
            answerer: &self.answerer,
        }
    }
}

// The reply to a call on the log.
fn counted(answer: Result<usize, LogFault>) -> Result<Reply, Refusal>
    ensures { result ≡ counted answer }
{
    Ok(Reply::Count(answer?))
}
