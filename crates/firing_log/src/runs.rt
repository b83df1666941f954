// What holds over whole runs of calls: each theorem is a contract, and there is nothing to run.
ghost use Rattle.firing_log.specs.Runs.{RunsRight};
ghost use Rattle.firing_log.specs.Laws.{OneLog, TwoLogs};

use reading::Reading;
use shape::Answerer;

// On a log that only its own calls have changed, the index numbers in use are the ones defined for its readings, no call finds them wrong,
// and every coldest question within the count gets the first coldest place.
pub fn runs_are_right<K: Reading, S: Answerer>(answerer: &S)
    ensures { RunsRight K.Reading.colder (S.Answerer.seats answerer.now) }
{}

// What a log keeps is what is defined for its readings:
// the numbers of blocks, which are exactly those below 1,430, the entries, the strip and the answers.
pub fn logs_keep_what_is_defined<K: Reading, S: Answerer>(answerer: &S)
    ensures { OneLog K.Reading.colder (S.Answerer.seats answerer.now) }
{}

// Of two logs, of one kind or two: equal block numbers are equal answers, equal strips are equal answers,
// and readings that compare alike make everything equal.
pub fn logs_agree<K: Reading, L: Reading, S: Answerer, R: Answerer>(answerer: &S, other: &R)
    ensures { TwoLogs K.Reading.colder (S.Answerer.seats answerer.now) L.Reading.colder (R.Answerer.seats other.now) }
{}
