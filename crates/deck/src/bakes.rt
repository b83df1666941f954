// Clearances and bakes for C: the tokens are checked, and then the rules of the crate `bake` are asked.
// They answer by the ballot walk, whose meaning is the same: the log's own calls are then alone on the table, and each is compiled in one piece.
ghost use Rattle.std.specs.Prelude.{◌≡◌};
ghost use Rattle.deck.specs.Answers.{answered};
ghost use Rattle.deck.specs.Bakes.{deck_cleared, deck_loaded, deck_unloaded, deck_abandoned};
ghost use Rattle.deck.specs.Faults.{returned};
ghost use Rattle.deck.specs.Of.{log_at};

use crate::fault::{DeckFault, Refusal, status};
use crate::sheet::DeckSheet;
use crate::tokens::{DeckBake, DeckClearance};
use bake::{Record, kept_count, record_from, start_at};
use firing_log::{LogView, Memory, Sheet};
use reading::Reading;
use shape::BallotWalk;

pub(crate) fn clear<K: Reading>(
    sheet: &DeckSheet,
    memory: &Memory<'_, K>,
    window: usize,
    set: K,
    clearance: &mut DeckClearance,
) -> Result<(), Refusal>
    ensures { (returned result, clearance.new) ≡ answered (deck_cleared K.Reading.colder (log_at sheet.now memory.now) window set) clearance.old }
{
    let own = Sheet::try_from(*sheet)?;
    let log = LogView {
        sheet: &own,
        memory,
        answerer: &BallotWalk,
    };
    let count = kept_count(log, window, set)?;
    *clearance = DeckClearance { count, held: 1 };
    Ok(())
}

#[unsafe(no_mangle)]
pub extern "C" fn deck_load(
    sheet: &DeckSheet,
    clearance: &mut DeckClearance,
    bake: &mut DeckBake,
) -> u32
    ensures { (result, clearance.new, bake.new) ≡ deck_loaded sheet.now clearance.old bake.old }
{
    status(load(sheet, clearance, bake))
}

// A bake that stands in the place would be lost without an end, so that it is refused.
fn load(
    sheet: &DeckSheet,
    clearance: &mut DeckClearance,
    bake: &mut DeckBake,
) -> Result<(), Refusal>
    ensures { (returned result, clearance.new, bake.new) ≡ deck_loaded sheet.now clearance.old bake.old }
{
    let own = Sheet::try_from(*sheet)?;
    let count = clearance.kept()?;
    if bake.is_held() {
        return Err(Refusal::OfDeck(DeckFault::BakeHeld));
    }
    let start = start_at(count, &own)?;
    clearance.held = 0;
    *bake = DeckBake { start, held: 1 };
    Ok(())
}

pub(crate) fn unload<K: Reading>(
    sheet: &DeckSheet,
    memory: &Memory<'_, K>,
    bake: &mut DeckBake,
    baked: &mut Record,
) -> Result<(), Refusal>
    ensures { (returned result, bake.new, baked.new) ≡ deck_unloaded K.Reading.colder (log_at sheet.now memory.now) bake.old baked.old }
{
    let own = Sheet::try_from(*sheet)?;
    let start = bake.kept()?;
    let log = LogView {
        sheet: &own,
        memory,
        answerer: &BallotWalk,
    };
    *baked = record_from(start, log)?;
    bake.held = 0;
    Ok(())
}

#[unsafe(no_mangle)]
pub extern "C" fn deck_abandon(bake: &mut DeckBake, start: &mut usize) -> u32
    ensures { (result, bake.new, start.new) ≡ deck_abandoned bake.old start.old }
{
    status(abandon(bake, start))
}

fn abandon(bake: &mut DeckBake, start: &mut usize) -> Result<(), Refusal>
    ensures { (returned result, bake.new, start.new) ≡ deck_abandoned bake.old start.old }
{
    *start = bake.kept()?;
    bake.held = 0;
    Ok(())
}
