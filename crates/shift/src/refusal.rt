// Why a line is refused. A refusal of the bench's panel has no bake's among its cases, and is no part of this program.
ghost use Rattle.std.specs.Prelude.{◌≡◌};
ghost use Rattle.shift.specs.Refusals.{refusal_code};
ghost use Rattle.shift.specs.Replies.{shown_refusal};
ghost use Rattle.shift.specs.declared.refusal.Refusal.TheVariants.{Log, Bake};

use bake::BakeFault;
use firing_log::LogFault;
use std::fmt;

#[derive(Clone, Copy, Debug, PartialEq, Eq)]
pub enum Refusal {
    // The line is no command, or one for which the hand holds nothing, or what it holds is in the way.
    Malformed,
    Log(LogFault),
    Bake(BakeFault),
}

impl Refusal {
    pub fn code(self) -> u8
        ensures { result ≡ refusal_code self }
    {
        match self {
            Refusal::Malformed => 23,
            Refusal::Log(fault) => fault.code(),
            Refusal::Bake(fault) => fault.code(),
        }
    }
}

impl From<LogFault> for Refusal {
    ghost from_gives = { λ fault refusal. refusal ≡ Log fault };

    fn from(fault: LogFault) -> Refusal {
        Refusal::Log(fault)
    }
}

impl From<BakeFault> for Refusal {
    ghost from_gives = { λ fault refusal. refusal ≡ Bake fault };

    fn from(fault: BakeFault) -> Refusal {
        Refusal::Bake(fault)
    }
}

impl fmt::Display for Refusal {
    ghost output = { shown_refusal };

    fn fmt<W: fmt::Write>(&self, f: &mut fmt::Formatter<W>) -> fmt::Result {
        write!(f, "no {}", self.code())
    }
}
