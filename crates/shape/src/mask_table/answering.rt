// Answers from a mask table: a cell, a mask and its leading zeros, with no loop.
ghost use Rattle.std.specs.Prelude.{◌≡◌, ◌<◌};
ghost use Rattle.paths.specs.Cell.{cell, seat};
ghost use Rattle.paths.proofs.Answers.{seat_answers};

use crate::answerer::Answerer;
use crate::fault::RangeFault;
use crate::mask_table::MaskTable;
use crate::question::Question;
use crate::walk::path_mask;

impl Answerer for MaskTable<'_> {
    ghost seats = { λ _. seat };

    ghost firsts = { λ _. seat_answers };

    fn first_coldest(&self, number: u16, from: usize, to: usize) -> Result<usize, RangeFault> {
        let question = Question::new(number, from, to)?;
        Ok(question.seat(self.path(question)))
    }
}

impl MaskTable<'_> {
    // The path at the end of a question's range, as a byte: a cell of the table, if one is open.
    fn path(&self, question: Question) -> u8
        ensures { result ≡ cell question.number question.to }
    {
        match self.cells {
            Some(cells) => cells[8 * usize::from(question.number) + question.to],
            None => path_mask(question.number, question.to),
        }
    }
}
