// The memory of one log as one value.
ghost use Rattle.std.specs.Prelude.{◌≡◌, length, replicate};

use crate::memory::Memory;

// What `Memory` lends. No const argument is computed from another, so all three are given: BLOCKS is one for each eight of CAPACITY begun, and ENTRIES 13 × BLOCKS.
#[derive(Drop)]
pub struct Space<K, const CAPACITY: usize, const BLOCKS: usize, const ENTRIES: usize> {
    pub readings: [K; CAPACITY],
    pub shapes: [u16; BLOCKS],
    pub entries: [u16; ENTRIES],
}

impl<K, const CAPACITY: usize, const BLOCKS: usize, const ENTRIES: usize> Space<
    K,
    CAPACITY,
    BLOCKS,
    ENTRIES,
> {
    // Memory of a log in which nothing is written yet.
    pub fn new(blank: K) -> Self
    where
        K: Copy,
        ensures readings { result.readings ≡ replicate CAPACITY blank }
        ensures shapes { result.shapes ≡ replicate BLOCKS 0 }
        ensures entries { result.entries ≡ replicate ENTRIES 0 }
    {
        Space {
            readings: [blank; CAPACITY],
            shapes: [0; BLOCKS],
            entries: [0; ENTRIES],
        }
    }

    // Lends the memory for the calls of a log. That writes come back is no clause: a contract can lend one slice or two, and these are three.
    pub fn memory(&mut self) -> Memory<'_, K>
        ensures readings { result.readings.now ≡ self.old.readings }
        ensures readings_length { length result.readings.now ≡ CAPACITY }
        ensures shapes { result.shapes.now ≡ self.old.shapes }
        ensures shapes_length { length result.shapes.now ≡ BLOCKS }
        ensures entries { result.entries.now ≡ self.old.entries }
        ensures entries_length { length result.entries.now ≡ ENTRIES }
    {
        Memory {
            readings: &mut self.readings,
            shapes: &mut self.shapes,
            entries: &mut self.entries,
        }
    }
}
