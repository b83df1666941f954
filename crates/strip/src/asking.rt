// Where a strip was first coldest: the last place of least depth. A question goes along the bytes up to the range's end, and along single bits in those where the range begins and ends.
ghost use Rattle.std.specs.Prelude.{◌≡◌, ◌+◌, ◌<◌, ◌≤◌, if◌then◌else◌, nat_le};
ghost use Rattle.strip.specs.Bits.{count_of, depth_of, LastLeast};
ghost use Rattle.strip.specs.Cursors.{ones_at};
ghost use Rattle.strip.specs.Questions.{Asked};
ghost use Rattle.strip.specs.Of.Cursor.{ByteBelow};
ghost use Rattle.strip.specs.Of.Strip.{strip_bytes};

use crate::cursor::{Cursor, Sounding};
use crate::fault::QuestionFault;
use crate::opened::Strip;

impl Strip<'_> {
    // The first coldest place of from..=to in every log that has this strip.
    pub fn coldest(&self, from: usize, to: usize) -> Result<usize, QuestionFault>
        ensures { Asked (strip_bytes self.now) from to result }
    {
        if from > to {
            return Err(QuestionFault::Backwards);
        }
        if to >= self.count() {
            return Err(QuestionFault::Beyond);
        }
        Ok(last_least(self, from, to))
    }
}

// The last place of least depth in from..=to.
fn last_least(strip: &Strip<'_>, from: usize, to: usize) -> usize
    requires { (from ≤ to) × (to < count_of (strip_bytes strip.now)) }
    ensures { LastLeast (depth_of (strip_bytes strip.now)) from to result }
{
    let cursor = Cursor::past(strip, from);
    let mut search = Search {
        cursor,
        best: Sounding {
            place: from,
            depth: cursor.height,
        },
    };
    while search.cursor.place <= to {
        search = search.step(to + 1);
    }
    search.best.place
}

// The way along a strip, and the last place of least depth on it so far.
#[derive(Clone, Copy)]
struct Search<'a> {
    cursor: Cursor<'a>,
    best: Sounding,
}

impl Search<'_> {
    ghost use Rattle.strip.specs.Of.Search.{Searched};

    // Nearer to place `end`, as `Cursor::nearer`; a trait over the two would be longer than these lines.
    fn step(&self, end: usize) -> Self
        requires before { self.now.cursor.place < end }
        requires more { end ≤ count_of (strip_bytes self.now.cursor.strip) }
        ensures place { result.cursor.place ≤ end }
        ensures searched { Searched self.now result }
    {
        if self.cursor.has_byte_below(end) {
            return self.past_byte();
        }
        self.past_bit()
    }

    // A whole byte further.
    fn past_byte(&self) -> Self
        requires byte { ByteBelow self.now.cursor (count_of (strip_bytes self.now.cursor.strip)) }
        ensures place { result.cursor.place ≡ self.now.cursor.place + ones_at (strip_bytes self.now.cursor.strip) self.now.cursor.at }
        ensures searched { Searched self.now result }
    {
        let cursor = self.cursor.past_byte();
        if cursor.place == self.cursor.place {
            return Search { cursor, ..*self };
        }
        Search {
            cursor,
            best: lesser(self.best, self.cursor.low_ahead()),
        }
    }

    // One bit further.
    fn past_bit(&self) -> Self
        requires more { self.now.cursor.place < count_of (strip_bytes self.now.cursor.strip) }
        ensures place { result.cursor.place ≤ self.now.cursor.place + 1 }
        ensures searched { Searched self.now result }
    {
        let cursor = self.cursor.past_bit();
        if cursor.place == self.cursor.place {
            return Search { cursor, ..*self };
        }
        let later = Sounding {
            place: self.cursor.place,
            depth: cursor.height,
        };
        Search {
            cursor,
            best: lesser(self.best, later),
        }
    }
}

// A later place wins unless it is deeper.
fn lesser(best: Sounding, later: Sounding) -> Sounding
    ensures { result ≡ (if nat_le later.depth best.depth then later else best) }
{
    if later.depth <= best.depth {
        return later;
    }
    best
}
