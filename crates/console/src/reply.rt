// What the bench program answers to a line that it obeys.
ghost use Rattle.std.specs.Prelude.{Some};
ghost use Rattle.console.specs.Reply.{done_text, shown_found};

use std::fmt;

// A log is changed, and holds so many readings now.
#[derive(Clone, Copy, Debug, PartialEq, Eq)]
pub struct Done(pub usize);

// A question's answer: the place, and the reading there.
#[derive(Clone, Copy, Debug, PartialEq, Eq)]
pub struct Found<T> {
    pub place: usize,
    pub reading: T,
}

impl fmt::Display for Done {
    ghost output = { λ done. Some (done_text done) };

    fn fmt<W: fmt::Write>(&self, f: &mut fmt::Formatter<W>) -> fmt::Result {
        let Done(count) = self;
        write!(f, "ok {count}")
    }
}

impl<T: fmt::Display> fmt::Display for Found<T> {
    ghost output = { shown_found T.Display.output };

    fn fmt<W: fmt::Write>(&self, f: &mut fmt::Formatter<W>) -> fmt::Result {
        let Found { place, reading } = self;
        write!(f, "{place} {reading}")
    }
}
