// Writing a log's strip. The path over the whole log stands in a working array on the call's stack, two bytes for each place that a log can have: 65,536 bytes.
ghost use Rattle.std.specs.Prelude.{◌≡◌, ℕ, ◌+◌, ◌-◌, ◌*◌, ◌/◌, ◌%◌, ◌^◌, ◌<◌, ◌≤◌, ◌++◌, length, take, drop, replicate, reverse, slice_index, slice_set};
ghost use Rattle.reading.specs.Coldest.{places};
ghost use Rattle.paths.specs.Path.{left};
ghost use Rattle.paths.specs.Stack.{Below};
ghost use Rattle.firing_log.specs.Strip.{strip_written, strip, strip_length, bits_of, bit_bytes, packed};
ghost use Rattle.firing_log.specs.Of.{state_of};

use crate::fault::LogFault;
use crate::memory::Memory;
use crate::sheet::{MOST_READINGS, Sheet};
use reading::Reading;

impl Sheet {
    // Writes the strip into `output`, and gives its length.
    pub fn write_strip<K: Reading>(
        &self,
        memory: &Memory<'_, K>,
        output: &mut [u8],
    ) -> Result<usize, LogFault>
        ensures result { result ≡ (strip_written K.Reading.colder (state_of self.now memory.now) output.old).0 }
        ensures after { output.new ≡ (strip_written K.Reading.colder (state_of self.now memory.now) output.old).1 }
    {
        let log = self.backed_by(memory)?;
        let length = 2 + self.count.div_ceil(4);
        if output.len() < length {
            return Err(LogFault::ShortOutput);
        }
        put_strip(&log.readings[..self.count], output);
        Ok(length)
    }
}

// The count of the readings, most significant byte first, and their bits.
fn put_strip<K: Reading>(readings: &[K], output: &mut [u8])
    requires few { length readings.now ≤ 32768 }
    requires room { strip_length (length readings.now) ≤ length output.old }
    ensures { output.new ≡ strip (places K.Reading.colder readings.now) (length readings.now) ++ drop (strip_length (length readings.now)) output.old }
{
    let count = readings.len();
    // At most 32,768: there is nothing that a `try_from` would refuse.
    output[..2].copy_from_slice(&(count as u16).to_be_bytes());
    let bits = &mut output[2..2 + count.div_ceil(4)];
    bits.fill(0);
    draw(readings, bits);
}

// Sets the bit of each arrival, where all bits are zero: removals are bits that stay zero.
fn draw<K: Reading>(readings: &[K], bits: &mut [u8])
    requires few { length readings.now ≤ 32768 }
    requires clear { bits.old ≡ replicate (bit_bytes (length readings.now)) 0 }
    ensures { bits.new ≡ packed (bit_bytes (length readings.now)) (bits_of (places K.Reading.colder readings.now) (length readings.now)) }
{
    // An array and its height, and no `ArrayVec`, whose length is kept in memory: a strip then takes a sixth longer to write.
    let mut path = [0; MOST_READINGS];
    let mut height = 0;
    // The places are what the path holds; the readings are read by place.
    for place in 0..readings.len() {
        height = trim(&path[..height], readings, place);
        set_bit(bits, 2 * place - height);
        path[height] = place as u16;
        height += 1;
    }
}

// Sets a bit, most significant first, that is zero yet.
#[tactic(auto, using(shape::proofs::Walks::place_bit))]
fn set_bit(bits: &mut [u8], position: usize)
    requires within { position / 8 < length bits.old }
    requires fits { slice_index bits.old (position / 8) + 2 ^ (7 - position % 8) < 256 }
    ensures { bits.new ≡ slice_set bits.old (position / 8) (slice_index bits.old (position / 8) + 2 ^ (7 - position % 8)) }
{
    bits[position / 8] += 0x80 >> (position % 8);
}

// How high the path stands once the arriving place has removed the last places that it is colder than.
fn trim<K: Reading>(path: &[u16], readings: &[K], place: usize) -> usize
    requires within { place < length readings.now }
    requires below { Below place (reverse path.now) }
    ensures height { result ≤ length path.now }
    ensures path { reverse (take result path.now) ≡ left (places K.Reading.colder readings.now) place (reverse path.now) }
{
    let mut height = path.len();
    while height > 0 && readings[place].is_colder(readings[usize::from(path[height - 1])]) {
        height -= 1;
    }
    height
}
