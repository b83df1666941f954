// Bakes on a log of tenths.
ghost use Rattle.std.specs.Prelude.{◌≡◌, false, is_ok};
ghost use Rattle.std.specs.Result.{result_map_both};
ghost use Rattle.bake.specs.Of.{clearance_count, start_of, sheet_count};
ghost use Rattle.bake.specs.Steps.{loaded};

use bake::{Bake, Clearance, Record, Refused, clear};
use firing_log::{LogFault, LogView, Memory, Sheet};
use reading::Tenths;
use shape::BallotWalk;
use std::test::Fail;

// Memory for 200 readings.
type Space = firing_log::Space<Tenths, 200, 25, 325>;

// Memory that is too short for a log of 200.
fn short_memory(readings: &mut [Tenths]) -> Memory<'_, Tenths> {
    Memory {
        readings,
        shapes: &mut [],
        entries: &mut [],
    }
}

// Writes a number that no block has over the numbers of all blocks.
fn spoil(memory: &mut Memory<'_, Tenths>) {
    memory.shapes.fill(1430);
}

fn take(
    sheet: &mut Sheet,
    memory: &mut Memory<'_, Tenths>,
    tenths: &[i32],
) -> Result<(), LogFault> {
    for reading in tenths {
        sheet.append(memory, &BallotWalk, Tenths(*reading))?;
    }
    Ok(())
}

fn log<'a>(sheet: &'a Sheet, memory: &'a Memory<'a, Tenths>) -> LogView<'a, Tenths, BallotWalk> {
    LogView {
        sheet,
        memory,
        answerer: &BallotWalk,
    }
}

// The kept count of a clearance, or the number of the refusal. Refusals are compared by number, since the rules list them so.
fn clears(log: LogView<'_, Tenths, BallotWalk>, window: usize, set: i32) -> Result<usize, u8> {
    clear(log, window, Tenths(set))
        .map(|clearance| clearance.count())
        .map_err(|fault| fault.code())
}

// The start of a bake that is loaded and then abandoned, or the number of the refusal.
fn loads(clearance: Clearance, sheet: &Sheet) -> Result<usize, u8> {
    clearance
        .load(sheet)
        .map(Bake::abandon)
        .map_err(|back| back.fault.code())
}

// The record of a bake, or the number of the refusal and the bake.
fn unloads(bake: Bake, log: LogView<'_, Tenths, BallotWalk>) -> Result<Record, (u8, Bake)> {
    bake.unload(log)
        .map_err(|Refused { fault, token }| (fault.code(), token))
}

// A load that is refused leaves the clearance in hand, and a later load takes it.
fn loads_later(
    clearance: Clearance,
    early: &Sheet,
    later: &Sheet,
) -> Result<Bake, Refused<Clearance>>
    ensures { is_ok (loaded (clearance_count clearance) (sheet_count early.now)) ≡ false → result_map_both start_of (λ back. back.fault) result ≡ loaded (clearance_count clearance) (sheet_count later.now) }
{
    clearance.load(early).or_else(|back| back.token.load(later))
}

#[test]
fn waits_for_sixty_readings(rt: HostRuntime) -> Result<(), Fail> {
    let mut space = Space::new(Tenths(0));
    let mut memory = space.memory();
    let mut sheet = Sheet::open(200, &memory)?;
    take(&mut sheet, &mut memory, &[2300, 2290])?;
    let first = clear(log(&sheet, &memory), 2, Tenths(2290))?;
    let second = clear(log(&sheet, &memory), 1, Tenths(2290))?;
    take(&mut sheet, &mut memory, &[2300; 60])?;
    assert_eq!(rt; loads(first, &sheet), Ok(62));
    take(&mut sheet, &mut memory, &[2300])?;
    match second.load(&sheet) {
        Ok(bake) => {
            bake.abandon();
            Err(Fail::new("loaded 61 readings late"))
        }
        Err(Refused { fault, token }) => {
            assert_eq!(rt; fault.code(), 9);
            sheet.cut(&mut memory, 62)?;
            assert_eq!(rt; loads(token, &sheet), Ok(62));
            Ok(())
        }
    }
}

#[test]
fn clears_over_warm_windows_alone(rt: HostRuntime) -> Result<(), Fail> {
    let mut space = Space::new(Tenths(0));
    let mut memory = space.memory();
    let mut sheet = Sheet::open(200, &memory)?;
    assert_eq!(rt; clears(log(&sheet, &memory), 1, 0), Err(7));
    take(&mut sheet, &mut memory, &[2300, 2290, 2310])?;
    for (window, set, answer) in [
        (0, 0, Err(7)),
        (1, 2310, Ok(3)),
        (1, 2311, Err(12)),
        (3, 2290, Ok(3)),
        (3, 2291, Err(12)),
        (4, 0, Err(7)),
    ] {
        assert_eq!(rt; clears(log(&sheet, &memory), window, set), answer);
    }
    assert_eq!(rt;
        clears(log(&sheet, &short_memory(&mut [Tenths(0); 3])), 4, 0),
        Err(2)
    );
    spoil(&mut memory);
    assert_eq!(rt; clears(log(&sheet, &memory), 4, 0), Err(7));
    assert_eq!(rt; clears(log(&sheet, &memory), 3, 2291), Err(11));
    Ok(())
}

#[test]
fn records_the_first_coldest_place(rt: HostRuntime) -> Result<(), Fail> {
    let mut space = Space::new(Tenths(0));
    let mut memory = space.memory();
    let mut sheet = Sheet::open(200, &memory)?;
    take(&mut sheet, &mut memory, &[2000, 2300])?;
    let clearance = clear(log(&sheet, &memory), 1, Tenths(2300))?;
    let bake = clearance.load(&sheet).map_err(|back| back.fault)?;
    let took = take(&mut sheet, &mut memory, &[2310, 2290, 2320, 2290]);
    match unloads(bake, log(&sheet, &memory)) {
        Ok(record) => assert_eq!(rt;
            record,
            Record {
                start: 2,
                last: 5,
                coldest: 3,
            }
        ),
        Err((_, bake)) => {
            bake.abandon();
            return Err(Fail::new("not unloaded"));
        }
    }
    Ok(took?)
}

// A bake in hand cannot be let go by a `?`, so the answers are checked after it has ended.
#[test]
fn keeps_a_bake_that_is_not_unloaded(rt: HostRuntime) -> Result<(), Fail> {
    let mut space = Space::new(Tenths(0));
    let mut memory = space.memory();
    let mut sheet = Sheet::open(200, &memory)?;
    take(&mut sheet, &mut memory, &[2300, 2300])?;
    let clearance = clear(log(&sheet, &memory), 2, Tenths(2300))?;
    let bake = clearance.load(&sheet).map_err(|back| back.fault)?;
    let Err((at_the_start, bake)) = unloads(bake, log(&sheet, &memory)) else {
        return Err(Fail::new("unloaded at the start"));
    };
    let cut = sheet.cut(&mut memory, 1);
    let Err((below_the_start, bake)) = unloads(bake, log(&sheet, &memory)) else {
        return Err(Fail::new("unloaded below the start"));
    };
    let mut few = [Tenths(0); 3];
    let short = short_memory(&mut few);
    let Err((in_short_memory, bake)) = unloads(bake, log(&sheet, &short)) else {
        return Err(Fail::new("unloaded from short memory"));
    };
    let took = take(&mut sheet, &mut memory, &[2300, 2300, 2300]);
    spoil(&mut memory);
    let Err((wrong_index, bake)) = unloads(bake, log(&sheet, &memory)) else {
        return Err(Fail::new("unloaded by a wrong index"));
    };
    assert_eq!(rt; bake.abandon(), 2);
    assert_eq!(rt; cut?, 1);
    took?;
    assert_eq!(rt;
        [at_the_start, below_the_start, in_short_memory, wrong_index],
        [10, 8, 2, 11]
    );
    Ok(())
}
