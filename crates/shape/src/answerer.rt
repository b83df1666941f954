// A block answerer: from a shape number alone, the first coldest place of a range of the block.
ghost use Rattle.std.specs.Prelude.{◌≡◌, ℕ};
ghost use Rattle.paths.specs.Laws.{AnswersFirsts};
ghost use Rattle.shape.specs.Outcomes.{seat_answer};

use crate::fault::RangeFault;

pub trait Answerer {
    // The first coldest place over a range, by shape number, first and last place.
    ghost seats: { Self → ℕ → ℕ → ℕ → ℕ };

    // Refuses a number above 1,429, a place above 7 and a range that runs backward.
    // It takes the three numbers and no `Question`, since a caller has numbers, and the call is what refuses them.
    // Each implementation is two lines over a `Question`; a trait between the three would be no shorter.
    fn first_coldest(&self, number: u16, from: usize, to: usize) -> Result<usize, RangeFault>
        ensures { result ≡ seat_answer (seats self.now) number from to };

    // It is that of every block with the number, of every kind, and of a block begun for ranges within what it has.
    ghost firsts: { (s : Self) → AnswersFirsts (seats s) };
}
