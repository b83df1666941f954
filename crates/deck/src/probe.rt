// A log of probe readings, for C. Each call is the generic one, at this kind.
ghost use Rattle.std.specs.Prelude.{◌≡◌};
ghost use Rattle.firing_log.specs.Of.{SameSlices};
ghost use Rattle.deck.specs.Answers.{answered};
ghost use Rattle.deck.specs.Bakes.{deck_cleared, deck_unloaded};
ghost use Rattle.deck.specs.Faults.{returned};
ghost use Rattle.deck.specs.Kinds.{deck_probe_of, deck_probe_colder, if_probe};
ghost use Rattle.deck.specs.Logs.{deck_appended, deck_cut, Asked, Stripped};
ghost use Rattle.deck.specs.Of.{probe_lent, left, log_at, opened_in, Same};

use crate::fault::{Refusal, status};
use crate::kinds::DeckProbe;
use crate::lending::lend;
use crate::sheet::DeckSheet;
use crate::tokens::{DeckBake, DeckClearance};
use crate::{bakes, calls};
use bake::Record;
use firing_log::Memory;

// A log's memory, as the caller hands it to each call: in one argument, which costs no test of each slice.
// One struct for each kind, and one export for each call and kind: nothing with a type parameter crosses to C.
#[repr(C)]
#[derive(Drop)]
pub struct DeckProbeMemory<'a> {
    pub readings: &'a mut [DeckProbe],
    pub shapes: &'a mut [u16],
    pub entries: &'a mut [u16],
}

#[unsafe(no_mangle)]
pub extern "C" fn deck_probe_open(
    sheet: &mut DeckSheet,
    capacity: usize,
    memory: DeckProbeMemory<'_>,
) -> u32
    ensures opened { (result, sheet.new) ≡ answered (opened_in capacity (probe_lent memory.entry)) sheet.old }
    ensures same { Same (probe_lent memory.entry) (left memory.exit) }
{
    lend!(memory: DeckProbeMemory);
    status(calls::open(sheet, capacity, &memory))
}

#[unsafe(no_mangle)]
pub extern "C" fn deck_probe_append(
    sheet: &mut DeckSheet,
    memory: DeckProbeMemory<'_>,
    margin: i32,
    number: u32,
) -> u32
    ensures { (result, log_at sheet.new (left memory.exit)) ≡ if_probe number (log_at sheet.old (probe_lent memory.entry)) (deck_appended deck_probe_colder (log_at sheet.old (probe_lent memory.entry)) (deck_probe_of margin number)) }
{
    lend!(memory: DeckProbeMemory);
    status(append(sheet, &mut memory, margin, number))
}

fn append(
    sheet: &mut DeckSheet,
    memory: &mut Memory<'_, DeckProbe>,
    margin: i32,
    number: u32,
) -> Result<(), Refusal>
    ensures done { (returned result, log_at sheet.new memory.new) ≡ if_probe number (log_at sheet.old memory.old) (deck_appended deck_probe_colder (log_at sheet.old memory.old) (deck_probe_of margin number)) }
    ensures same { SameSlices memory.old memory.new }
{
    calls::append(sheet, memory, DeckProbe::new(margin, number)?)
}

#[unsafe(no_mangle)]
pub extern "C" fn deck_probe_cut(
    sheet: &mut DeckSheet,
    memory: DeckProbeMemory<'_>,
    n: usize,
) -> u32
    ensures { (result, log_at sheet.new (left memory.exit)) ≡ deck_cut deck_probe_colder (log_at sheet.old (probe_lent memory.entry)) n }
{
    lend!(memory: DeckProbeMemory);
    status(calls::cut(sheet, &mut memory, n))
}

#[unsafe(no_mangle)]
pub extern "C" fn deck_probe_coldest(
    sheet: &DeckSheet,
    memory: DeckProbeMemory<'_>,
    from: usize,
    to: usize,
    place: &mut usize,
    reading: &mut DeckProbe,
) -> u32
    ensures asked { Asked deck_probe_colder (log_at sheet.now (probe_lent memory.entry)) from to place.old reading.old result place.new reading.new }
    ensures same { Same (probe_lent memory.entry) (left memory.exit) }
{
    lend!(memory: DeckProbeMemory);
    status(calls::coldest(sheet, &memory, from, to, place, reading))
}

#[unsafe(no_mangle)]
pub extern "C" fn deck_probe_strip(
    sheet: &DeckSheet,
    memory: DeckProbeMemory<'_>,
    output: &mut [u8],
    length: &mut usize,
) -> u32
    ensures written { Stripped deck_probe_colder (log_at sheet.now (probe_lent memory.entry)) output.old length.old result output.new length.new }
    ensures same { Same (probe_lent memory.entry) (left memory.exit) }
{
    lend!(memory: DeckProbeMemory);
    status(calls::write_strip(sheet, &memory, output, length))
}

#[unsafe(no_mangle)]
pub extern "C" fn deck_probe_clear(
    sheet: &DeckSheet,
    memory: DeckProbeMemory<'_>,
    window: usize,
    set_margin: i32,
    set_number: u32,
    clearance: &mut DeckClearance,
) -> u32
    ensures cleared { (result, clearance.new) ≡ if_probe set_number clearance.old (answered (deck_cleared deck_probe_colder (log_at sheet.now (probe_lent memory.entry)) window (deck_probe_of set_margin set_number)) clearance.old) }
    ensures same { Same (probe_lent memory.entry) (left memory.exit) }
{
    lend!(memory: DeckProbeMemory);
    status(clear(sheet, &memory, window, set_margin, set_number, clearance))
}

fn clear(
    sheet: &DeckSheet,
    memory: &Memory<'_, DeckProbe>,
    window: usize,
    set_margin: i32,
    set_number: u32,
    clearance: &mut DeckClearance,
) -> Result<(), Refusal>
    ensures { (returned result, clearance.new) ≡ if_probe set_number clearance.old (answered (deck_cleared deck_probe_colder (log_at sheet.now memory.now) window (deck_probe_of set_margin set_number)) clearance.old) }
{
    let set = DeckProbe::new(set_margin, set_number)?;
    bakes::clear(sheet, memory, window, set, clearance)
}

#[unsafe(no_mangle)]
pub extern "C" fn deck_probe_unload(
    sheet: &DeckSheet,
    memory: DeckProbeMemory<'_>,
    bake: &mut DeckBake,
    baked: &mut Record,
) -> u32
    ensures ended { (result, bake.new, baked.new) ≡ deck_unloaded deck_probe_colder (log_at sheet.now (probe_lent memory.entry)) bake.old baked.old }
    ensures same { Same (probe_lent memory.entry) (left memory.exit) }
{
    lend!(memory: DeckProbeMemory);
    status(bakes::unload(sheet, &memory, bake, baked))
}
