// What the panel answers to a line that it obeys.
ghost use Rattle.std.specs.Prelude.{Some};
ghost use Rattle.panel.specs.Text.{answer_text};

use crate::log_name::LogName;
use crate::written::WrittenStrip;
use console::{Done, Found, Hex};
use reading::{Probe, Reversed, Tenths};
use std::fmt;

// A count after a change, or a place with the reading there, each by the log that it is about. Or a strip, which is printed in hexadecimal.
#[derive(Clone, Copy)]
pub enum Answer {
    Changed(LogName, Done),
    Cold(Found<Tenths>),
    Hot(Found<Reversed<Tenths>>),
    Probes(Found<Probe>),
    Written(WrittenStrip),
}

impl fmt::Display for Answer {
    ghost output = { λ answer. Some (answer_text answer) };

    fn fmt<W: fmt::Write>(&self, f: &mut fmt::Formatter<W>) -> fmt::Result {
        match self {
            Answer::Changed(_, done) => write!(f, "{done}"),
            Answer::Cold(found) => write!(f, "{found}"),
            Answer::Hot(found) => write!(f, "{found}"),
            Answer::Probes(found) => write!(f, "{found}"),
            Answer::Written(strip) => {
                let digits = Hex(strip.bytes());
                write!(f, "{digits}")
            }
        }
    }
}
