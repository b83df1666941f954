// A strip that was written into output memory.
ghost use Rattle.std.specs.Prelude.{◌≡◌, take};

// Room for the strip of 2,048 readings: two bytes for the count, and one for every four readings.
pub(crate) const STRIP_ROOM: usize = 2 + 2_048 / 4;

// The strip is the first `len` bytes. An array and a length, since an answer is `Copy` and an `ArrayVec` is not.
#[derive(Clone, Copy)]
pub struct WrittenStrip {
    pub(crate) output: [u8; STRIP_ROOM],
    pub(crate) len: usize,
}

impl WrittenStrip {
    pub fn bytes(&self) -> &[u8]
        ensures { result.now ≡ take self.now.len self.now.output }
    {
        // Cut at the room, since no invariant says that the length is within it: each definition that makes an answer would have to prove it.
        &self.output[..self.len.min(STRIP_ROOM)]
    }
}
