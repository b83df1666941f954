// The way along a strip's bits, a bit or a whole byte at a time.
ghost use Rattle.std.specs.Prelude.{◌≡◌, ◌+◌, ◌-◌, ◌<◌, ◌≤◌, ◌↔◌, IsTrue};
ghost use Rattle.strip.specs.Bits.{count_of, depth_of};
ghost use Rattle.strip.specs.Cursors.{Spot, PastBit, ones_at, Best};
ghost use Rattle.strip.specs.Of.Strip.{strip_bytes};

use crate::bits::bit;
use crate::octet::{lowest, ones_in};
use crate::opened::Strip;

// A place and its depth.
#[derive(Clone, Copy)]
pub(crate) struct Sounding {
    pub(crate) place: usize,
    pub(crate) depth: usize,
}

// The next place, the bit to go on from, and the height there.
// That a place or a whole byte is still ahead stands in contracts and not in the type, since a cursor also stands behind the last one.
#[derive(Clone, Copy)]
pub(crate) struct Cursor<'a> {
    strip: Strip<'a>,
    pub(crate) place: usize,
    at: usize,
    pub(crate) height: usize,
    ghost spot: { Spot strip.bytes.now place at height },
}

impl<'a> Cursor<'a> {
    ghost use Rattle.strip.specs.Of.Cursor.{ByteBelow, Further};

    // Before the first bit.
    pub(crate) fn start(strip: &Strip<'a>) -> Self
        ensures strip { result.strip ≡ strip.now }
        ensures place { result.place ≡ 0 }
    {
        Cursor {
            strip: *strip,
            place: 0,
            at: 16,
            height: 0,
        }
    }

    // Right past the one of place `place`, where the height is its depth.
    pub(crate) fn past(strip: &Strip<'a>, place: usize) -> Self
        requires more { place < count_of (strip_bytes strip.now) }
        ensures strip { result.strip ≡ strip.now }
        ensures place { result.place ≡ place + 1 }
        ensures depth { result.height ≡ depth_of (strip_bytes strip.now) place }
    {
        let mut cursor = Cursor::start(strip);
        while cursor.place <= place {
            cursor = cursor.nearer(place + 1);
        }
        cursor
    }

    // Nearer to place `end`: a byte where the whole byte is before it, else a bit.
    fn nearer(&self, end: usize) -> Self
        requires before { self.now.place < end }
        requires more { end ≤ count_of (strip_bytes self.now.strip) }
        ensures place { result.place ≤ end }
        ensures depth { result.place ≡ end → result.height ≡ depth_of (strip_bytes self.now.strip) (end - 1) }
        ensures further { Further self.now result }
    {
        if self.has_byte_below(end) {
            return self.past_byte();
        }
        self.past_bit()
    }

    // Past the next place's one: its depth is the height there.
    pub(crate) fn advance(&self) -> Self
        requires more { self.now.place < count_of (strip_bytes self.now.strip) }
        ensures strip { result.strip ≡ self.now.strip }
        ensures place { result.place ≡ self.now.place + 1 }
        ensures depth { result.height ≡ depth_of (strip_bytes self.now.strip) self.now.place }
    {
        let mut next = *self;
        while next.place == self.place {
            next = next.past_bit();
        }
        next
    }

    // One bit further.
    pub(crate) fn past_bit(&self) -> Self
        requires more { self.now.place < count_of (strip_bytes self.now.strip) }
        ensures place { PastBit (strip_bytes self.now.strip) self.now.place result.place result.height }
        ensures further { Further self.now result }
    {
        let at = self.at + 1;
        if bit(self.strip.bytes, self.at) {
            return Cursor {
                strip: self.strip,
                place: self.place + 1,
                at,
                height: self.height + 1,
            };
        }
        Cursor {
            strip: self.strip,
            place: self.place,
            at,
            height: self.height - 1,
        }
    }

    // Whether a whole byte lies ahead, behind which the next place is below `end`.
    pub(crate) fn has_byte_below(&self, end: usize) -> bool
        requires before { self.now.place < end }
        requires more { end ≤ count_of (strip_bytes self.now.strip) }
        ensures { IsTrue result ↔ ByteBelow self.now end }
    {
        self.at % 8 == 0 && self.place + self.ones_ahead() < end
    }

    // A whole byte further.
    pub(crate) fn past_byte(&self) -> Self
        requires byte { ByteBelow self.now (count_of (strip_bytes self.now.strip)) }
        ensures place { result.place ≡ self.now.place + ones_at (strip_bytes self.now.strip) self.now.at }
        ensures further { Further self.now result }
    {
        let ones = self.ones_ahead();
        Cursor {
            strip: self.strip,
            place: self.place + ones,
            at: self.at + 8,
            height: self.height + 2 * ones - 8,
        }
    }

    // The last place of least depth of the whole byte ahead.
    pub(crate) fn low_ahead(&self) -> Sounding
        requires byte { ByteBelow self.now (count_of (strip_bytes self.now.strip)) }
        requires some { 0 < ones_at (strip_bytes self.now.strip) self.now.at }
        ensures { Best (strip_bytes self.now.strip) self.now.place (self.now.place + ones_at (strip_bytes self.now.strip) self.now.at) result }
    {
        let low = lowest(self.strip.bytes[self.at / 8]);
        Sounding {
            place: self.place + usize::from(low.last),
            depth: self.height + usize::from(low.depth) - 8,
        }
    }

    // The ones of the byte that the next bit is in.
    fn ones_ahead(&self) -> usize
        requires { self.now.place < count_of (strip_bytes self.now.strip) }
        ensures ones { result ≡ ones_at (strip_bytes self.now.strip) self.now.at }
        ensures few { result ≤ 8 }
    {
        ones_in(self.strip.bytes[self.at / 8])
    }
}
