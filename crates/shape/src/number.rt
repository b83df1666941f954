// The shape number of a block: the path is kept as a monotone stack, and each removal adds a ballot number.
ghost use Rattle.std.specs.Prelude.{◌≡◌, ◌<◌, ◌≤◌, [], ◌∷◌, ◌++◌, length, take};
ghost use Rattle.paths.specs.Number.{shape};
ghost use Rattle.shape.specs.Climbs.{Climbs};

use crate::ballot::entry;
use reading::Reading;

// The shape number of the first eight readings, or of all where there are fewer.
pub fn shape_number<K: Reading>(block: &[K]) -> u16
    ensures { result ≡ shape K.Reading.colder (take 8 block.now) }
{
    Climb::over(first(block, 8)).number
}

// The shape number of the first seven readings, or of all where there are fewer, and one more behind them.
pub fn shape_number_with<K: Reading>(front: &[K], last: K) -> u16
    ensures { result ≡ shape K.Reading.colder (take 7 front.now ++ (last ∷ [])) }
{
    let front = first(front, 7);
    let mut climb = Climb::over(front);
    climb.arrive(front, last);
    climb.number
}

// The first readings, at most `most`.
fn first<K>(readings: &[K], most: usize) -> &[K]
    ensures { result.now ≡ take most readings.now }
{
    &readings[..readings.len().min(most)]
}

// The path of the readings that have arrived, and their number.
// One word and no stack: with an array and its height an append takes 173 instructions, above the aim of 1.1 times plain C, and with the word 161.
#[derive(Clone, Copy)]
struct Climb {
    // Its places as the digits of a number to base 256, the last place lowest. Each is one more than the place, so that no place is 0.
    path: usize,
    // Where the next removal finds what it adds, in a row of ballot numbers: eight less the removals so far.
    column: usize,
    number: u16,
}

impl Climb {
    // All readings of a block arrive.
    fn over<K: Reading>(block: &[K]) -> Climb
        requires { length block.now ≤ 8 }
        ensures { Climbs K.Reading.colder block.now result }
    {
        let mut climb = Climb {
            path: 0,
            column: 8,
            number: 0,
        };
        for (place, reading) in block.iter().enumerate() {
            climb.arrive(&block[..place], *reading);
        }
        climb
    }

    // One reading more arrives: it removes the last places of the path that it is colder than, and joins its end.
    fn arrive<K: Reading>(&mut self, front: &[K], reading: K)
        requires few { length front.now < 8 }
        requires climbs { Climbs K.Reading.colder front.now self.old }
        ensures { Climbs K.Reading.colder (front.now ++ (reading ∷ [])) self.new }
    {
        let place = front.len();
        while self.path > 0 && removes(reading, front[self.path % 256 - 1]) {
            self.number += entry(7 - place, self.column);
            self.path /= 256;
            self.column -= 1;
        }
        self.path = 256 * self.path + (place + 1);
    }
}

// Only a strictly colder reading removes: of readings that tie, the earlier stays.
fn removes<K: Reading>(arriving: K, last: K) -> bool
    ensures { result ≡ K.Reading.colder arriving last }
{
    arriving.is_colder(last)
}
