// How a probe reading is made, ordered and printed.
ghost use Rattle.std.specs.Prelude.{◌≡◌, ◌<◌, Some, Decides, MatchResult};
ghost use Rattle.reading.specs.Probes.{probe_margin, probe_number, probe_of, probe_colder, ProbeColder};
ghost use Rattle.reading.specs.Text.{probe_text};
ghost use Rattle.std.proofs.Common.{rules, arith};

use super::Probe;
use crate::{Printable, ProbeFault, Reading};
use std::fmt;

impl Probe {
    pub fn new(margin: i32, number: u8) -> Result<Probe, ProbeFault>
        ensures value { result ≡ probe_of margin number }
        ensures cases { MatchResult result (λ p. (probe_margin p ≡ margin) × (probe_number p ≡ number)) (λ e. (e ≡ ProbeFault.NoSuchProbe) × (7 < number)) }
    {
        if number > 7 {
            return Err(ProbeFault::NoSuchProbe);
        }
        Ok(Probe { margin, number })
    }

    pub fn margin(self) -> i32
        ensures { result ≡ probe_margin self }
    {
        self.margin
    }

    pub fn number(self) -> u8
        ensures { result ≡ probe_number self }
    {
        self.number
    }
}

impl Reading for Probe {
    ghost colder = { probe_colder };

    ghost orders = { first_of (Prim.search rules, Prim.grind (arith, Self.row.coded.inj)) };

    fn is_colder(self, other: Probe) -> bool
        ensures value { result ≡ probe_colder self other }
        ensures decides { Decides result (ProbeColder self other) }
    {
        self < other
    }
}

impl fmt::Display for Probe {
    ghost output = { λ p. Some (probe_text p) };

    fn fmt<W: fmt::Write>(&self, f: &mut fmt::Formatter<W>) -> fmt::Result {
        let margin = self.margin;
        let number = self.number;
        write!(f, "{margin}/{number}")
    }
}

impl Printable for Probe {
    ghost text = { probe_text };

    ghost printed = { first_of (Prim.search rules, Prim.grind (arith, Self.row.coded.inj)) };
}
