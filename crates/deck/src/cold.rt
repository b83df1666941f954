// A log of tenths, for C. Each call is the generic one, at this kind.
ghost use Rattle.std.specs.Prelude.{◌≡◌};
ghost use Rattle.reading.specs.Tenths.{tenths_colder};
ghost use Rattle.deck.specs.Answers.{answered};
ghost use Rattle.deck.specs.Bakes.{deck_cleared, deck_unloaded};
ghost use Rattle.deck.specs.Kinds.{cold_of};
ghost use Rattle.deck.specs.Logs.{deck_appended, deck_cut, Asked, Stripped};
ghost use Rattle.deck.specs.Of.{cold_lent, left, log_at, opened_in, Same};

use crate::fault::status;
use crate::lending::lend;
use crate::sheet::DeckSheet;
use crate::tokens::{DeckBake, DeckClearance};
use crate::{bakes, calls};
use bake::Record;
use reading::Tenths;

// A log's memory, as the caller hands it to each call: in one argument, which costs no test of each slice.
// One struct for each kind, and one export for each call and kind: nothing with a type parameter crosses to C.
#[repr(C)]
#[derive(Drop)]
pub struct DeckColdMemory<'a> {
    pub readings: &'a mut [Tenths],
    pub shapes: &'a mut [u16],
    pub entries: &'a mut [u16],
}

#[unsafe(no_mangle)]
pub extern "C" fn deck_cold_open(
    sheet: &mut DeckSheet,
    capacity: usize,
    memory: DeckColdMemory<'_>,
) -> u32
    ensures opened { (result, sheet.new) ≡ answered (opened_in capacity (cold_lent memory.entry)) sheet.old }
    ensures same { Same (cold_lent memory.entry) (left memory.exit) }
{
    lend!(memory: DeckColdMemory);
    status(calls::open(sheet, capacity, &memory))
}

#[unsafe(no_mangle)]
pub extern "C" fn deck_cold_append(
    sheet: &mut DeckSheet,
    memory: DeckColdMemory<'_>,
    tenths: i32,
) -> u32
    ensures { (result, log_at sheet.new (left memory.exit)) ≡ deck_appended tenths_colder (log_at sheet.old (cold_lent memory.entry)) (cold_of tenths) }
{
    lend!(memory: DeckColdMemory);
    status(calls::append(sheet, &mut memory, Tenths(tenths)))
}

#[unsafe(no_mangle)]
pub extern "C" fn deck_cold_cut(sheet: &mut DeckSheet, memory: DeckColdMemory<'_>, n: usize) -> u32
    ensures { (result, log_at sheet.new (left memory.exit)) ≡ deck_cut tenths_colder (log_at sheet.old (cold_lent memory.entry)) n }
{
    lend!(memory: DeckColdMemory);
    status(calls::cut(sheet, &mut memory, n))
}

#[unsafe(no_mangle)]
pub extern "C" fn deck_cold_coldest(
    sheet: &DeckSheet,
    memory: DeckColdMemory<'_>,
    from: usize,
    to: usize,
    place: &mut usize,
    tenths: &mut Tenths,
) -> u32
    ensures asked { Asked tenths_colder (log_at sheet.now (cold_lent memory.entry)) from to place.old tenths.old result place.new tenths.new }
    ensures same { Same (cold_lent memory.entry) (left memory.exit) }
{
    lend!(memory: DeckColdMemory);
    status(calls::coldest(sheet, &memory, from, to, place, tenths))
}

#[unsafe(no_mangle)]
pub extern "C" fn deck_cold_strip(
    sheet: &DeckSheet,
    memory: DeckColdMemory<'_>,
    output: &mut [u8],
    length: &mut usize,
) -> u32
    ensures written { Stripped tenths_colder (log_at sheet.now (cold_lent memory.entry)) output.old length.old result output.new length.new }
    ensures same { Same (cold_lent memory.entry) (left memory.exit) }
{
    lend!(memory: DeckColdMemory);
    status(calls::write_strip(sheet, &memory, output, length))
}

#[unsafe(no_mangle)]
pub extern "C" fn deck_cold_clear(
    sheet: &DeckSheet,
    memory: DeckColdMemory<'_>,
    window: usize,
    set: i32,
    clearance: &mut DeckClearance,
) -> u32
    ensures cleared { (result, clearance.new) ≡ answered (deck_cleared tenths_colder (log_at sheet.now (cold_lent memory.entry)) window (cold_of set)) clearance.old }
    ensures same { Same (cold_lent memory.entry) (left memory.exit) }
{
    lend!(memory: DeckColdMemory);
    status(bakes::clear(sheet, &memory, window, Tenths(set), clearance))
}

#[unsafe(no_mangle)]
pub extern "C" fn deck_cold_unload(
    sheet: &DeckSheet,
    memory: DeckColdMemory<'_>,
    bake: &mut DeckBake,
    baked: &mut Record,
) -> u32
    ensures ended { (result, bake.new, baked.new) ≡ deck_unloaded tenths_colder (log_at sheet.now (cold_lent memory.entry)) bake.old baked.old }
    ensures same { Same (cold_lent memory.entry) (left memory.exit) }
{
    lend!(memory: DeckColdMemory);
    status(bakes::unload(sheet, &memory, bake, baked))
}
