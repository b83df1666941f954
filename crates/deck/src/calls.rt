// The calls on a log of any kind, over a sheet that a caller in C keeps.
// Sheet and memory are two parameters, as C hands them, and an answer goes to the caller's places.
ghost use Rattle.std.specs.Prelude.{◌≡◌};
ghost use Rattle.firing_log.specs.Of.{SameSlices};
ghost use Rattle.deck.specs.Answers.{answered};
ghost use Rattle.deck.specs.Faults.{returned};
ghost use Rattle.deck.specs.Logs.{deck_appended, deck_cut, Asked, Stripped};
ghost use Rattle.deck.specs.Of.{log_at, opened_in};

use crate::fault::Refusal;
use crate::masks::Masks;
use crate::sheet::DeckSheet;
use firing_log::{Memory, Sheet};
use reading::Reading;

pub(crate) fn open<K>(
    sheet: &mut DeckSheet,
    capacity: usize,
    memory: &Memory<'_, K>,
) -> Result<(), Refusal>
    ensures { (returned result, sheet.new) ≡ answered (opened_in capacity memory.now) sheet.old }
{
    *sheet = Sheet::open(capacity, memory)?.into();
    Ok(())
}

pub(crate) fn append<K: Reading>(
    sheet: &mut DeckSheet,
    memory: &mut Memory<'_, K>,
    reading: K,
) -> Result<(), Refusal>
    ensures done { (returned result, log_at sheet.new memory.new) ≡ deck_appended K.Reading.colder (log_at sheet.old memory.old) reading }
    ensures same { SameSlices memory.old memory.new }
{
    let mut own = Sheet::try_from(*sheet)?;
    own.append(memory, &Masks, reading)?;
    *sheet = own.into();
    Ok(())
}

pub(crate) fn cut<K: Reading>(
    sheet: &mut DeckSheet,
    memory: &mut Memory<'_, K>,
    n: usize,
) -> Result<(), Refusal>
    ensures done { (returned result, log_at sheet.new memory.new) ≡ deck_cut K.Reading.colder (log_at sheet.old memory.old) n }
    ensures same { SameSlices memory.old memory.new }
{
    let mut own = Sheet::try_from(*sheet)?;
    own.cut(memory, n)?;
    *sheet = own.into();
    Ok(())
}

pub(crate) fn coldest<K: Reading>(
    sheet: &DeckSheet,
    memory: &Memory<'_, K>,
    from: usize,
    to: usize,
    place: &mut usize,
    reading: &mut K,
) -> Result<(), Refusal>
    ensures { Asked K.Reading.colder (log_at sheet.now memory.now) from to place.old reading.old (returned result) place.new reading.new }
{
    let own = Sheet::try_from(*sheet)?;
    let found = own.coldest(memory, &Masks, from, to)?;
    *place = found.0;
    *reading = found.1;
    Ok(())
}

pub(crate) fn write_strip<K: Reading>(
    sheet: &DeckSheet,
    memory: &Memory<'_, K>,
    output: &mut [u8],
    length: &mut usize,
) -> Result<(), Refusal>
    ensures { Stripped K.Reading.colder (log_at sheet.now memory.now) output.old length.old (returned result) output.new length.new }
{
    let own = Sheet::try_from(*sheet)?;
    *length = own.write_strip(memory, output)?;
    Ok(())
}
