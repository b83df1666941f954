// Replaying a strip into a log of tenths. All is checked before anything is written: the strip, then the log, then that the strip fits.
ghost use Rattle.std.specs.Prelude.{◌≡◌, ◌+◌, ◌≤◌};
ghost use Rattle.reading.specs.Tenths.{tenths_colder};
ghost use Rattle.firing_log.specs.Of.{state_of, SameSlices};
ghost use Rattle.firing_log.specs.Runs.{Reached};
ghost use Rattle.strip.specs.Bits.{count_of};
ghost use Rattle.strip.specs.Of.Strip.{strip_bytes};
ghost use Rattle.strip.specs.Replay.{replay_code, replay_start, replay_readings, appended_all, Replayed};

use crate::cursor::Cursor;
use crate::opened::Strip;
use crate::replays::ReplayFault;
use firing_log::{LogFault, Memory, Sheet};
use reading::Tenths;
use shape::Answerer;

impl ReplayFault {
    // The number of the side's own refusal.
    pub fn code(self) -> u8
        ensures { result ≡ replay_code self }
    {
        // Each side numbers its own refusals.
        match self {
            ReplayFault::OfStrip(fault) => fault.code(),
            ReplayFault::OfLog(fault) => fault.code(),
        }
    }
}

// Makes a log of the strip's readings: 32,768 × depth − place for each place.
pub fn replay<S: Answerer>(
    bytes: &[u8],
    capacity: usize,
    memory: &mut Memory<'_, Tenths>,
    answerer: &S,
) -> Result<Sheet, ReplayFault>
    ensures log { Replayed (S.Answerer.seats answerer.now) bytes.now
        (replay_start bytes.now capacity memory.old.readings.now memory.old.shapes.now memory.old.entries.now)
        memory.old memory.new result }
    ensures same { SameSlices memory.old memory.new }
{
    let mut strip = Strip::new();
    strip.open(bytes)?;
    let mut sheet = Sheet::open(capacity, memory)?;
    if strip.count() > capacity {
        return Err(ReplayFault::OfLog(LogFault::Full));
    }
    append_all(&strip, &mut sheet, memory, answerer);
    Ok(sheet)
}

// Appends the strip's readings to a log that has room for them.
fn append_all<S: Answerer>(
    strip: &Strip<'_>,
    sheet: &mut Sheet,
    memory: &mut Memory<'_, Tenths>,
    answerer: &S,
)
    requires reached { Reached tenths_colder (S.Answerer.seats answerer.now) (state_of sheet.old memory.old) }
    requires room { sheet.old.count + count_of (strip_bytes strip.now) ≤ sheet.old.capacity }
    ensures after { state_of sheet.new memory.new ≡ appended_all (S.Answerer.seats answerer.now) (state_of sheet.old memory.old) (replay_readings (strip_bytes strip.now)) }
    ensures same { SameSlices memory.old memory.new }
{
    let mut cursor = Cursor::start(strip);
    // The place is a part of the reading's value, and indexes nothing.
    for place in 0..strip.count() {
        cursor = cursor.advance();
        // Below 2^31: there is nothing that a `try_from` would refuse.
        let tenths = 32_768 * cursor.height - place;
        sheet
            .append(memory, answerer, Tenths(tenths as i32))
            .unwrap();
    }
}
