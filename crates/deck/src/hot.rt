// A log of tenths in the reverse order, for C. Each call is the generic one, at this kind.
ghost use Rattle.std.specs.Prelude.{◌≡◌};
ghost use Rattle.deck.specs.Answers.{answered};
ghost use Rattle.deck.specs.Bakes.{deck_cleared, deck_unloaded};
ghost use Rattle.deck.specs.Kinds.{hot_of, hot_colder};
ghost use Rattle.deck.specs.Logs.{deck_appended, deck_cut, Asked, Stripped};
ghost use Rattle.deck.specs.Of.{hot_lent, left, log_at, opened_in, Same};

use crate::fault::status;
use crate::kinds::DeckHot;
use crate::lending::lend;
use crate::sheet::DeckSheet;
use crate::tokens::{DeckBake, DeckClearance};
use crate::{bakes, calls};
use bake::Record;

// A log's memory, as the caller hands it to each call: in one argument, which costs no test of each slice.
// One struct for each kind, and one export for each call and kind: nothing with a type parameter crosses to C.
#[repr(C)]
#[derive(Drop)]
pub struct DeckHotMemory<'a> {
    pub readings: &'a mut [DeckHot],
    pub shapes: &'a mut [u16],
    pub entries: &'a mut [u16],
}

#[unsafe(no_mangle)]
pub extern "C" fn deck_hot_open(
    sheet: &mut DeckSheet,
    capacity: usize,
    memory: DeckHotMemory<'_>,
) -> u32
    ensures opened { (result, sheet.new) ≡ answered (opened_in capacity (hot_lent memory.entry)) sheet.old }
    ensures same { Same (hot_lent memory.entry) (left memory.exit) }
{
    lend!(memory: DeckHotMemory);
    status(calls::open(sheet, capacity, &memory))
}

#[unsafe(no_mangle)]
pub extern "C" fn deck_hot_append(
    sheet: &mut DeckSheet,
    memory: DeckHotMemory<'_>,
    tenths: i32,
) -> u32
    ensures { (result, log_at sheet.new (left memory.exit)) ≡ deck_appended hot_colder (log_at sheet.old (hot_lent memory.entry)) (hot_of tenths) }
{
    lend!(memory: DeckHotMemory);
    status(calls::append(sheet, &mut memory, DeckHot { tenths }))
}

#[unsafe(no_mangle)]
pub extern "C" fn deck_hot_cut(sheet: &mut DeckSheet, memory: DeckHotMemory<'_>, n: usize) -> u32
    ensures { (result, log_at sheet.new (left memory.exit)) ≡ deck_cut hot_colder (log_at sheet.old (hot_lent memory.entry)) n }
{
    lend!(memory: DeckHotMemory);
    status(calls::cut(sheet, &mut memory, n))
}

#[unsafe(no_mangle)]
pub extern "C" fn deck_hot_coldest(
    sheet: &DeckSheet,
    memory: DeckHotMemory<'_>,
    from: usize,
    to: usize,
    place: &mut usize,
    tenths: &mut DeckHot,
) -> u32
    ensures asked { Asked hot_colder (log_at sheet.now (hot_lent memory.entry)) from to place.old tenths.old result place.new tenths.new }
    ensures same { Same (hot_lent memory.entry) (left memory.exit) }
{
    lend!(memory: DeckHotMemory);
    status(calls::coldest(sheet, &memory, from, to, place, tenths))
}

#[unsafe(no_mangle)]
pub extern "C" fn deck_hot_strip(
    sheet: &DeckSheet,
    memory: DeckHotMemory<'_>,
    output: &mut [u8],
    length: &mut usize,
) -> u32
    ensures written { Stripped hot_colder (log_at sheet.now (hot_lent memory.entry)) output.old length.old result output.new length.new }
    ensures same { Same (hot_lent memory.entry) (left memory.exit) }
{
    lend!(memory: DeckHotMemory);
    status(calls::write_strip(sheet, &memory, output, length))
}

#[unsafe(no_mangle)]
pub extern "C" fn deck_hot_clear(
    sheet: &DeckSheet,
    memory: DeckHotMemory<'_>,
    window: usize,
    set: i32,
    clearance: &mut DeckClearance,
) -> u32
    ensures cleared { (result, clearance.new) ≡ answered (deck_cleared hot_colder (log_at sheet.now (hot_lent memory.entry)) window (hot_of set)) clearance.old }
    ensures same { Same (hot_lent memory.entry) (left memory.exit) }
{
    lend!(memory: DeckHotMemory);
    status(bakes::clear(sheet, &memory, window, DeckHot { tenths: set }, clearance))
}

#[unsafe(no_mangle)]
pub extern "C" fn deck_hot_unload(
    sheet: &DeckSheet,
    memory: DeckHotMemory<'_>,
    bake: &mut DeckBake,
    baked: &mut Record,
) -> u32
    ensures ended { (result, bake.new, baked.new) ≡ deck_unloaded hot_colder (log_at sheet.now (hot_lent memory.entry)) bake.old baked.old }
    ensures same { Same (hot_lent memory.entry) (left memory.exit) }
{
    lend!(memory: DeckHotMemory);
    status(bakes::unload(sheet, &memory, bake, baked))
}
