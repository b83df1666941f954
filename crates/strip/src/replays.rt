// Replaying a strip into a log of tenths: the fault, which says what refused.
ghost use Rattle.std.specs.Prelude.{◌≡◌};
ghost use Rattle.strip.specs.declared.replays.ReplayFault.TheVariants.{OfStrip, OfLog};

use crate::fault::StripFault;
use firing_log::LogFault;

mod replaying;

pub use replaying::replay;

// Which side refused, with its refusal whole.
#[derive(Clone, Copy, PartialEq, Eq, Debug)]
pub enum ReplayFault {
    OfStrip(StripFault),
    OfLog(LogFault),
}

impl From<StripFault> for ReplayFault {
    ghost from_gives = { λ fault r. r ≡ OfStrip fault };

    fn from(fault: StripFault) -> ReplayFault {
        ReplayFault::OfStrip(fault)
    }
}

impl From<LogFault> for ReplayFault {
    ghost from_gives = { λ fault r. r ≡ OfLog fault };

    fn from(fault: LogFault) -> ReplayFault {
        ReplayFault::OfLog(fault)
    }
}
