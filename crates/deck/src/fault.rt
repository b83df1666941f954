// What a call refuses, and the number that it returns for it.
ghost use Rattle.std.specs.Prelude.{◌≡◌};
ghost use Rattle.deck.specs.Faults.{refusal_code, returned};
ghost use Rattle.deck.specs.declared.fault.Refusal.TheVariants.{OfDeck, OfProbe, OfTable, OfLog, OfBake, OfStrip, OfQuestion, OfReplay};

use bake::BakeFault;
use firing_log::LogFault;
use reading::ProbeFault;
use shape::TableFault;
use strip::{QuestionFault, ReplayFault, StripFault};

// What the boundary itself refuses: what a caller in C can break, and the types of the other crates keep.
#[derive(Clone, Copy, Debug, PartialEq, Eq)]
pub enum DeckFault {
    // The two numbers are no sheet's: the capacity is 0 or above 32,768, or the count is above the capacity.
    NoSheet = 64,
    // No clearance is held: none was given, or it was used up.
    NoClearance = 65,
    // No bake is held: none was loaded, or it was unloaded or abandoned.
    NoBake = 66,
    // The place for a new bake holds one that was neither unloaded nor abandoned.
    BakeHeld = 67,
}

// The boundary's own refusal, or that of the crate which was asked.
#[derive(Clone, Copy, Debug, PartialEq, Eq)]
pub(crate) enum Refusal {
    OfDeck(DeckFault),
    OfProbe(ProbeFault),
    OfTable(TableFault),
    OfLog(LogFault),
    OfBake(BakeFault),
    OfStrip(StripFault),
    OfQuestion(QuestionFault),
    OfReplay(ReplayFault),
}

// What a call returns, since no Result crosses to C: 0, or the number of its refusal.
pub(crate) fn status(answer: Result<(), Refusal>) -> u32
    ensures { result ≡ returned answer }
{
    match answer {
        Ok(()) => 0,
        Err(refusal) => u32::from(refusal.code()),
    }
}

impl Refusal {
    fn code(self) -> u8
        ensures { result ≡ refusal_code self }
    {
        match self {
            Refusal::OfDeck(fault) => fault as u8,
            Refusal::OfProbe(fault) => fault.code(),
            Refusal::OfTable(fault) => fault.code(),
            Refusal::OfLog(fault) => fault.code(),
            Refusal::OfBake(fault) => fault.code(),
            Refusal::OfStrip(fault) => fault.code(),
            Refusal::OfQuestion(fault) => fault.code(),
            Refusal::OfReplay(fault) => fault.code(),
        }
    }
}

impl From<DeckFault> for Refusal {
    ghost from_gives = { λ fault refusal. refusal ≡ OfDeck fault };

    fn from(fault: DeckFault) -> Refusal {
        Refusal::OfDeck(fault)
    }
}

impl From<ProbeFault> for Refusal {
    ghost from_gives = { λ fault refusal. refusal ≡ OfProbe fault };

    fn from(fault: ProbeFault) -> Refusal {
        Refusal::OfProbe(fault)
    }
}

impl From<TableFault> for Refusal {
    ghost from_gives = { λ fault refusal. refusal ≡ OfTable fault };

    fn from(fault: TableFault) -> Refusal {
        Refusal::OfTable(fault)
    }
}

impl From<LogFault> for Refusal {
    ghost from_gives = { λ fault refusal. refusal ≡ OfLog fault };

    fn from(fault: LogFault) -> Refusal {
        Refusal::OfLog(fault)
    }
}

impl From<BakeFault> for Refusal {
    ghost from_gives = { λ fault refusal. refusal ≡ OfBake fault };

    fn from(fault: BakeFault) -> Refusal {
        Refusal::OfBake(fault)
    }
}

impl From<StripFault> for Refusal {
    ghost from_gives = { λ fault refusal. refusal ≡ OfStrip fault };

    fn from(fault: StripFault) -> Refusal {
        Refusal::OfStrip(fault)
    }
}

impl From<QuestionFault> for Refusal {
    ghost from_gives = { λ fault refusal. refusal ≡ OfQuestion fault };

    fn from(fault: QuestionFault) -> Refusal {
        Refusal::OfQuestion(fault)
    }
}

impl From<ReplayFault> for Refusal {
    ghost from_gives = { λ fault refusal. refusal ≡ OfReplay fault };

    fn from(fault: ReplayFault) -> Refusal {
        Refusal::OfReplay(fault)
    }
}
