// What holds of clearances and bakes on a log that only its own calls have changed: the theorem is a contract, and there is nothing to run.
ghost use Rattle.bake.specs.Runs.{BakesRight};

use reading::Reading;
use shape::Answerer;

// A clearance is given exactly when the window is in range and warm, and a bake's record names the first coldest place from its start to the last reading.
pub fn bakes_are_right<K: Reading, S: Answerer>(answerer: &S)
    ensures { BakesRight K.Reading.colder (S.Answerer.seats answerer.now) }
{}
