// Why the panel does not obey a line.
ghost use Rattle.std.specs.Prelude.{◌≡◌, Some};
ghost use Rattle.panel.specs.Refusals.{refusal_code, refusal_text};
ghost use Rattle.panel.specs.declared.log_name.LogName.TheVariants.{ColdLog};
ghost use Rattle.panel.specs.declared.refusal.Refusal.TheVariants.{Line, Log, Probe as NoProbe};

use crate::log_name::LogName;
use console::Malformed;
use firing_log::LogFault;
use reading::ProbeFault;
use std::fmt;

#[derive(Clone, Copy, Debug, PartialEq, Eq)]
pub enum Refusal {
    // The line asks for nothing.
    Line(Malformed),
    // The line gives a reading of a probe that is none, and is malformed by that.
    Probe(ProbeFault),
    // A log refuses what the line asks for; the name is of the log that the reply is about.
    Log(LogName, LogFault),
}

impl Refusal {
    pub fn code(self) -> u8
        ensures { result ≡ refusal_code self }
    {
        match self {
            Refusal::Line(line) => line.code(),
            Refusal::Probe(_) => Malformed.code(),
            Refusal::Log(_, fault) => fault.code(),
        }
    }
}

impl From<Malformed> for Refusal {
    ghost from_gives = { λ malformed refusal. refusal ≡ Line malformed };

    fn from(malformed: Malformed) -> Self {
        Refusal::Line(malformed)
    }
}

impl From<ProbeFault> for Refusal {
    ghost from_gives = { λ fault refusal. refusal ≡ NoProbe fault };

    fn from(fault: ProbeFault) -> Self {
        Refusal::Probe(fault)
    }
}

// The cold log answers for both logs of tenths, and gives the strip, so a fault that comes without a log's name is the cold log's.
impl From<LogFault> for Refusal {
    ghost from_gives = { λ fault refusal. refusal ≡ Log ColdLog fault };

    fn from(fault: LogFault) -> Self {
        Refusal::Log(LogName::ColdLog, fault)
    }
}

impl fmt::Display for Refusal {
    ghost output = { λ refusal. Some (refusal_text refusal) };

    fn fmt<W: fmt::Write>(&self, f: &mut fmt::Formatter<W>) -> fmt::Result {
        write!(f, "no {}", self.code())
    }
}
