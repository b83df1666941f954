// The answerer that keeps no table: each answer walks the moves of a shape number, by ballot numbers, to the path that it reads the place off.
ghost use Rattle.std.specs.Prelude.{◌≡◌, ◌<◌};
ghost use Rattle.paths.specs.Cell.{cell, seat};
ghost use Rattle.paths.proofs.Answers.{seat_answers};

use crate::answerer::Answerer;
use crate::ballot::entry;
use crate::fault::RangeFault;
use crate::question::Question;

#[derive(Clone, Copy)]
pub struct BallotWalk;

impl Answerer for BallotWalk {
    ghost seats = { λ _. seat };

    ghost firsts = { λ _. seat_answers };

    fn first_coldest(&self, number: u16, from: usize, to: usize) -> Result<usize, RangeFault> {
        let question = Question::new(number, from, to)?;
        Ok(question.seat(path_mask(question.number, question.to)))
    }
}

// The path just after the place `end` arrived, as a byte with place 0 as its most significant bit.
// A removal clears the lowest bit, and an arrival sets a bit below it.
pub(crate) fn path_mask(number: u16, end: usize) -> u8
    requires number_within { number < 1430 }
    requires end_within { end < 8 }
    ensures { result ≡ cell number end }
{
    let mut removed = 0;
    let mut rest = number;
    let mut path = 0u8;
    for place in 0..=end {
        while rest >= entry(7 - place, 8 - removed) {
            rest -= entry(7 - place, 8 - removed);
            removed += 1;
            path &= path - 1;
        }
        path += 0x80 >> place;
    }
    path
}
