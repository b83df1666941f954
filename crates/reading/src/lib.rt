// Readings: what is colder than what, for every kind of reading, and how a reading is printed.
#![tactic(auto)]

ghost use Rattle.std.specs.Prelude.{◌≡◌, ℕ, Bool, List, Some};
ghost use Rattle.reading.specs.Order.{Orders};

use std::fmt::Display;

mod fault;
mod probe;
mod reversed;
mod tenths;
#[cfg(test)]
mod tests;

pub use fault::ProbeFault;
pub use probe::Probe;
pub use reversed::Reversed;
pub use tenths::Tenths;

// A kind of reading: it says of two readings whether the first is colder than the second.
pub trait Reading: Copy {
    // Holds of two readings of which the first is colder.
    ghost colder: { Self → Self → Bool };

    fn is_colder(self, other: Self) -> bool
        ensures { result ≡ colder self other };

    ghost orders: { Orders colder };
}

// A kind of reading that can be printed.
pub trait Printable: Reading + Display {
    // The bytes of a reading's text.
    ghost text: { Self → List ℕ };

    // `{}` writes the text.
    ghost printed: { (x : Self) → Self.Display.output x ≡ Some (text x) };
}
