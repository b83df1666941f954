// What strips and logs have in common: each theorem is a contract, and there is nothing to run.
ghost use Rattle.strip.specs.Laws.{WrittenStrips, ReplaysBack, IsOneToOne};
ghost use Rattle.strip.specs.Known.{KnownFirings};

use reading::Reading;
use shape::Answerer;

// Whatever strip writing writes is accepted, and the opened strip answers every question within the count as the log does.
pub fn written_strips_are_accepted<K: Reading, S: Answerer>(answerer: &S)
    ensures { WrittenStrips K.Reading.colder (S.Answerer.seats answerer.now) }
{}

// An accepted strip is the strip of a log: replayed, it makes a log with that same strip, byte for byte, which answers as the strip does.
pub fn accepted_strips_are_of_logs<S: Answerer>(answerer: &S)
    ensures { ReplaysBack (S.Answerer.seats answerer.now) }
{}

// Accepted strips of n readings and shapes of logs of n readings correspond one to one.
pub fn strips_and_shapes_correspond<K: Reading, L: Reading, S: Answerer, R: Answerer>(
    answerer: &S,
    other: &R,
)
    ensures { IsOneToOne K.Reading.colder (S.Answerer.seats answerer.now) L.Reading.colder (R.Answerer.seats other.now) }
{}

// Worked examples of ballot numbers, shape numbers, answers, strips and refusals, as one fact about the definitions.
pub fn known_firings()
    ensures { KnownFirings }
{}
