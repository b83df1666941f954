// Readings in the reverse order.
ghost use Rattle.std.specs.Prelude.{Some};
ghost use Rattle.std.proofs.Common.{rules};

use crate::{Printable, Reading};
use std::fmt;

// Any kind with its order turned round.
#[derive(Clone, Copy)]
pub struct Reversed<K>(pub K);

impl<K: Reading> Reading for Reversed<K> {
    ghost colder = { λ a b. K.Reading.colder b.0 a.0 };

    ghost orders = { Prim.search rules };

    fn is_colder(self, other: Reversed<K>) -> bool {
        other.0.is_colder(self.0)
    }
}

// Prints the reading inside.
impl<K: Printable> fmt::Display for Reversed<K> {
    ghost output = { λ x. Some (K.Printable.text x.0) };

    fn fmt<W: fmt::Write>(&self, f: &mut fmt::Formatter<W>) -> fmt::Result {
        let inside = self.0;
        write!(f, "{inside}")
    }
}

impl<K: Printable> Printable for Reversed<K> {
    ghost text = { λ x. K.Printable.text x.0 };

    ghost printed = { Prim.search rules };
}
