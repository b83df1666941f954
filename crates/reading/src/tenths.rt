// Stone temperatures.
ghost use Rattle.std.specs.Prelude.{Some};
ghost use Rattle.reading.specs.Tenths.{tenths_colder};
ghost use Rattle.reading.specs.Text.{tenths_text};
ghost use Rattle.std.proofs.Common.{rules};

use crate::{Printable, Reading};
use std::fmt;

// A stone temperature in tenths of a degree; the smaller is colder. It crosses to C as it is.
#[derive(Clone, Copy, PartialEq, Eq, PartialOrd, Ord, Debug)]
#[repr(C)]
pub struct Tenths(pub i32);

impl Reading for Tenths {
    ghost colder = { tenths_colder };

    ghost orders = { Prim.search rules };

    fn is_colder(self, other: Tenths) -> bool {
        self < other
    }
}

impl fmt::Display for Tenths {
    ghost output = { λ t. Some (tenths_text t) };

    fn fmt<W: fmt::Write>(&self, f: &mut fmt::Formatter<W>) -> fmt::Result {
        let tenths = self.0;
        write!(f, "{tenths}")
    }
}

impl Printable for Tenths {
    ghost text = { tenths_text };

    ghost printed = { Prim.search rules };
}
