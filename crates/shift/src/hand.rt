// What the baker holds between two lines, and what the calls of a bake make of it.
ghost use Rattle.std.specs.Prelude.{◌≡◌};
ghost use Rattle.firing_log.specs.View.{seen};
ghost use Rattle.bake.specs.Of.{sheet_count};
ghost use Rattle.shift.specs.Hands.{held, after_clear, after_load, after_unload, after_abandon};

use crate::refusal::Refusal;
use crate::reply::Reply;
use bake::{Bake, Clearance, Refused, clear};
use firing_log::{LogView, Sheet};
use reading::Reading;
use shape::Answerer;

// One thing at a time. A bake cannot be let go, and so neither can this.
pub enum Hand {
    Empty,
    Cleared(Clearance),
    Baking(Bake),
}

impl Hand {
    // A clearance that is given takes the place of an older one; none is given while a bake is on the stone.
    pub fn clear<K: Reading, S: Answerer>(
        self,
        log: LogView<'_, K, S>,
        window: usize,
        set: K,
    ) -> (Hand, Result<Reply, Refusal>)
        ensures { (held result.0, result.1) ≡ after_clear K.Reading.colder (S.Answerer.seats log.entry.answerer.now) (seen log.entry) window set (held self) }
    {
        if let Hand::Baking(bake) = self {
            return (Hand::Baking(bake), Err(Refusal::Malformed));
        }
        match clear(log, window, set) {
            Ok(clearance) => {
                self.put_down();
                let count = clearance.count();
                (Hand::Cleared(clearance), Ok(Reply::Clear { count }))
            }
            Err(fault) => (self, Err(fault.into())),
        }
    }

    pub fn load(self, sheet: &Sheet) -> (Hand, Result<Reply, Refusal>)
        ensures { (held result.0, result.1) ≡ after_load (sheet_count sheet.now) (held self) }
    {
        let Hand::Cleared(clearance) = self else {
            return (self, Err(Refusal::Malformed));
        };
        match clearance.load(sheet) {
            Ok(bake) => {
                let start = bake.start();
                (Hand::Baking(bake), Ok(Reply::Loaded { start }))
            }
            Err(Refused { fault, token }) => (Hand::Cleared(token), Err(fault.into())),
        }
    }

    pub fn unload<K: Reading, S: Answerer>(
        self,
        log: LogView<'_, K, S>,
    ) -> (Hand, Result<Reply, Refusal>)
        ensures { (held result.0, result.1) ≡ after_unload K.Reading.colder (S.Answerer.seats log.entry.answerer.now) (seen log.entry) (held self) }
    {
        let Hand::Baking(bake) = self else {
            return (self, Err(Refusal::Malformed));
        };
        match bake.unload(log) {
            Ok(record) => (Hand::Empty, Ok(Reply::Unloaded(record))),
            Err(Refused { fault, token }) => (Hand::Baking(token), Err(fault.into())),
        }
    }

    pub fn abandon(self) -> (Hand, Result<Reply, Refusal>)
        ensures { (held result.0, result.1) ≡ after_abandon (held self) }
    {
        let Hand::Baking(bake) = self else {
            return (self, Err(Refusal::Malformed));
        };
        let start = bake.abandon();
        (Hand::Empty, Ok(Reply::Abandoned { start }))
    }

    // Empties the hand: a clearance is let go, and a bake is abandoned.
    pub fn put_down(self) {
        match self {
            Hand::Empty => {}
            Hand::Cleared(_clearance) => {}
            Hand::Baking(bake) => {
                bake.abandon();
            }
        }
    }
}
