// What the bench does with its input.
ghost use Rattle.panel.specs.Input.{AnswersLine, Ends, EndsRightly, Takes, TakesRightly};

use super::Bench;
use crate::answer::Answer;
use crate::refusal::Refusal;

const LINE_END: u8 = b'\n';

impl Bench<'_> {
    // Takes one byte of the input more, and answers the line that it ends, if it ends one.
    pub fn feed(&mut self, byte: u8) -> Option<Result<Answer, Refusal>>
        ensures takes { Takes self.old byte result self.new }
        ensures right { TakesRightly self.old byte result self.new }
    {
        if byte == LINE_END {
            return Some(self.answer_line());
        }
        self.line.step(byte);
        None
    }

    // Ends the input, and answers a last line that no byte has ended, if there is one.
    pub fn finish(&mut self) -> Option<Result<Answer, Refusal>>
        ensures ends { Ends self.old result self.new }
        ensures right { EndsRightly self.old result self.new }
    {
        if self.line.has_bytes() {
            return Some(self.answer_line());
        }
        None
    }

    // Answers the line, and makes ready for the next.
    fn answer_line(&mut self) -> Result<Answer, Refusal>
        ensures { AnswersLine self.old result self.new }
    {
        let answer = self.panel.answer(self.line.finish());
        self.line.reset();
        answer
    }
}
