// A question to a block answerer, and its answer read off a path.
ghost use Rattle.std.specs.Prelude.{◌≡◌, ◌/◌, ◌^◌, ◌<◌, ◌≤◌, ◌⊎◌, ◌↔◌, IsErr, IfOk, bit_and};
ghost use Rattle.std.specs.Int.Count.{count_leading_zeros};
ghost use Rattle.paths.specs.Cell.{cell, seat};

use crate::fault::RangeFault;

// A shape number and a range of its block, both ends included.
#[derive(Clone, Copy, PartialEq, Eq, Debug)]
pub struct Question {
    pub number: u16,
    pub from: usize,
    pub to: usize,
    ghost carried: { number < 1430 },
    ghost forward: { from ≤ to },
    ghost within: { to < 8 },
}

impl Question {
    // Refuses a number above 1,429, a place above 7 and a range that runs backward.
    #[inline]
    pub fn new(number: u16, from: usize, to: usize) -> Result<Question, RangeFault>
        ensures refused { IsErr result ↔ ((1429 < number) ⊎ (7 < to) ⊎ (to < from)) }
        ensures asked { IfOk result (λ q. (q.number ≡ number) × (q.from ≡ from) × (q.to ≡ to)) }
    {
        if number > 1429 || to > 7 || from > to {
            return Err(RangeFault::OutOfRange);
        }
        Ok(Question { number, from, to })
    }

    // The first coldest place of the range, read off the path at its end: a byte with place 0 as its most significant bit.
    // Of any byte it is the lowest place from `from` on that the byte shows, which is its highest bit that is left, or 8 where it shows none.
    #[inline]
    pub fn seat(self, path: u8) -> usize
        ensures lowest { result ≡ count_leading_zeros 8 (bit_and path (255 / 2 ^ self.from)) }
        ensures first { path ≡ cell self.number self.to → result ≡ seat self.number self.from self.to }
    {
        // `usize` has no `From<u32>`.
        (path & (0xff >> self.from)).leading_zeros() as usize
    }
}
