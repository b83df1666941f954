// A block and its shape number together: an answer about readings, and what shape numbers are worth.
ghost use Rattle.std.specs.Prelude.{take};
ghost use Rattle.shape.specs.Blocks.{FirstColdestOfBlocks, CellsArePaths, BlockAnswer};
ghost use Rattle.paths.specs.Laws.{EqualNumbers, ExactNumbers};

use crate::answerer::Answerer;
use crate::fault::RangeFault;
use crate::number::shape_number;
use reading::Reading;

// The first coldest place over a range of a block, which is the first eight readings, or all where there are fewer.
pub fn first_coldest_of<K: Reading, B: Answerer>(
    answerer: &B,
    block: &[K],
    from: usize,
    to: usize,
) -> Result<usize, RangeFault>
    ensures { BlockAnswer K.Reading.colder (take 8 block.now) from to result }
{
    if to >= block.len() {
        return Err(RangeFault::OutOfRange);
    }
    answerer.first_coldest(shape_number(block), from, to)
}

// The theorems that follow are their contracts: there is nothing to run.

// Two full blocks carry the same number exactly when all their ranges have the same first coldest places.
pub fn equal_numbers_equal_answers<K: Reading, L: Reading>()
    ensures { EqualNumbers K.Reading.colder L.Reading.colder }
{}

// The numbers are those below 1,430, each of which some full block carries.
pub fn numbers_are_exact<K: Reading>()
    ensures { ExactNumbers K.Reading.colder }
{}

// A cell of the mask table is the path of every block that carries its number.
pub fn cells_are_paths<K: Reading>()
    ensures { CellsArePaths K.Reading.colder }
{}

// What an answerer gives for a number is right for every block that carries it.
pub fn answers_are_first_coldest<K: Reading, B: Answerer>(answerer: &B)
    ensures { FirstColdestOfBlocks K.Reading.colder (B.Answerer.seats answerer.now) }
{}
