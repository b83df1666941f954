// Strips for C. A strip that was opened does not cross, since a caller could change its bytes: each question opens it again.
ghost use Rattle.std.specs.Prelude.{◌≡◌};
ghost use Rattle.firing_log.specs.Of.{SameSlices};
ghost use Rattle.strip.specs.Outcomes.{opening_answer};
ghost use Rattle.deck.specs.Answers.{answered};
ghost use Rattle.deck.specs.Faults.{returned};
ghost use Rattle.deck.specs.Of.{cold_lent, left, log_at};
ghost use Rattle.deck.specs.Strips.{strip_opened, StripAsked, deck_replayed};

use crate::cold::DeckColdMemory;
use crate::fault::{Refusal, status};
use crate::lending::lend;
use crate::sheet::DeckSheet;
use firing_log::Memory;
use reading::Tenths;
use shape::BallotWalk;
use strip::Strip;

#[unsafe(no_mangle)]
pub extern "C" fn deck_strip_open(bytes: &[u8], count: &mut usize) -> u32
    ensures { (result, count.new) ≡ answered (strip_opened bytes.now) count.old }
{
    status(open(bytes, count))
}

fn open(bytes: &[u8], count: &mut usize) -> Result<(), Refusal>
    ensures { (returned result, count.new) ≡ answered (strip_opened bytes.now) count.old }
{
    let mut strip = Strip::new();
    strip.open(bytes)?;
    *count = strip.count();
    Ok(())
}

#[unsafe(no_mangle)]
pub extern "C" fn deck_strip_coldest(bytes: &[u8], from: usize, to: usize, place: &mut usize) -> u32
    ensures { StripAsked bytes.now from to place.old result place.new (opening_answer bytes.now) }
{
    status(coldest(bytes, from, to, place))
}

fn coldest(bytes: &[u8], from: usize, to: usize, place: &mut usize) -> Result<(), Refusal>
    ensures { StripAsked bytes.now from to place.old (returned result) place.new (opening_answer bytes.now) }
{
    let mut strip = Strip::new();
    strip.open(bytes)?;
    *place = strip.coldest(from, to)?;
    Ok(())
}

#[unsafe(no_mangle)]
pub extern "C" fn deck_replay(
    bytes: &[u8],
    capacity: usize,
    memory: DeckColdMemory<'_>,
    sheet: &mut DeckSheet,
) -> u32
    ensures { (result, log_at sheet.new (left memory.exit)) ≡ deck_replayed bytes.now capacity (log_at sheet.old (cold_lent memory.entry)) }
{
    lend!(memory: DeckColdMemory);
    status(replay(bytes, capacity, &mut memory, sheet))
}

fn replay(
    bytes: &[u8],
    capacity: usize,
    memory: &mut Memory<'_, Tenths>,
    sheet: &mut DeckSheet,
) -> Result<(), Refusal>
    ensures done { (returned result, log_at sheet.new memory.new) ≡ deck_replayed bytes.now capacity (log_at sheet.old memory.old) }
    ensures same { SameSlices memory.old memory.new }
{
    *sheet = strip::replay(bytes, capacity, memory, &BallotWalk)?.into();
    Ok(())
}
