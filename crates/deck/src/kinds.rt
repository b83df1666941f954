// Readings as they stand in memory that a caller in C writes. Tenths cross as they are.
ghost use Rattle.deck.specs.Kinds.{hot_colder, deck_probe_colder, ProbeMade};
ghost use Rattle.std.proofs.Common.{rules};

use reading::{ProbeFault, Reading};

// Tenths in the reverse order. A type of its own, since the generic `Reversed<Tenths>` does not cross to C.
#[repr(C)]
#[derive(Clone, Copy)]
pub struct DeckHot {
    pub tenths: i32,
}

impl Reading for DeckHot {
    ghost colder = { hot_colder };

    ghost orders = { Prim.search rules };

    fn is_colder(self, other: DeckHot) -> bool {
        other.tenths < self.tenths
    }
}

// A probe reading whose number may be any, since a caller may write any: the order is lawful for all of them.
#[repr(C)]
#[derive(Clone, Copy, PartialEq, Eq, PartialOrd, Ord)]
pub struct DeckProbe {
    pub margin: i32,
    pub number: u32,
}

impl DeckProbe {
    // A reading to write: unlike one that is found in memory, it has the number of a probe.
    pub(crate) fn new(margin: i32, number: u32) -> Result<DeckProbe, ProbeFault>
        ensures { ProbeMade margin number result }
    {
        if number > 7 {
            return Err(ProbeFault::NoSuchProbe);
        }
        Ok(DeckProbe { margin, number })
    }
}

impl Reading for DeckProbe {
    ghost colder = { deck_probe_colder };

    ghost orders = { Prim.search rules };

    fn is_colder(self, other: DeckProbe) -> bool {
        self < other
    }
}
