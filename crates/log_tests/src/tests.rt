// What a caller of the crate firing_log sees.
use firing_log::{LogFault, Memory, Sheet, Space};
use reading::Tenths;
use shape::BallotWalk;
use std::process::Abort;
use std::test::Fail;

// The capacity of a log that is opened in this memory. The slices are no `Space`, since each test gives one of them a length of its own.
fn opened(
    capacity: usize,
    readings: &mut [Tenths],
    shapes: &mut [u16],
    entries: &mut [u16],
) -> Result<usize, LogFault> {
    let memory = Memory {
        readings,
        shapes,
        entries,
    };
    let sheet = Sheet::open(capacity, &memory)?;
    Ok(sheet.capacity())
}

#[test]
fn capacities_go_from_1_to_32768(rt: HostRuntime) {
    let refused = Err(LogFault::Capacity);
    assert_eq!(rt; opened(0, &mut [], &mut [], &mut []), refused);
    assert_eq!(rt; opened(1, &mut [Tenths(0)], &mut [0], &mut [0; 13]), Ok(1));
    let mut readings = [Tenths(0); 32_769];
    let mut shapes = [0; 4_097];
    let mut entries = [0; 53_261];
    assert_eq!(rt;
        opened(32_768, &mut readings, &mut shapes, &mut entries),
        Ok(32_768)
    );
    assert_eq!(rt;
        opened(32_769, &mut readings, &mut shapes, &mut entries),
        refused
    );
}

#[test]
fn each_part_of_the_memory_is_long_enough(rt: HostRuntime) {
    let refused = Err(LogFault::ShortMemory);
    assert_eq!(rt;
        opened(9, &mut [Tenths(0); 8], &mut [0; 2], &mut [0; 26]),
        refused
    );
    assert_eq!(rt;
        opened(9, &mut [Tenths(0); 9], &mut [0; 1], &mut [0; 26]),
        refused
    );
    assert_eq!(rt;
        opened(9, &mut [Tenths(0); 9], &mut [0; 2], &mut [0; 25]),
        refused
    );
    assert_eq!(rt;
        opened(9, &mut [Tenths(0); 9], &mut [0; 2], &mut [0; 26]),
        Ok(9)
    );
}

// The memory of a log of 24 places.
fn space() -> Space<Tenths, 24, 3, 39> {
    Space::new(Tenths(0))
}

// A log of 24 places with this many readings, each of 2300 tenths.
fn firing(memory: &mut Memory<'_, Tenths>, count: usize) -> Result<Sheet, LogFault> {
    let mut sheet = Sheet::open(24, memory)?;
    for _ in 0..count {
        sheet.append(memory, &BallotWalk, Tenths(2300))?;
    }
    Ok(sheet)
}

// The place that a question is answered with.
fn place(
    sheet: &Sheet,
    memory: &Memory<'_, Tenths>,
    from: usize,
    to: usize,
) -> Result<usize, LogFault> {
    let (place, _) = sheet.coldest(memory, &BallotWalk, from, to)?;
    Ok(place)
}

#[test]
fn the_first_of_equal_readings_is_coldest(rt: HostRuntime) -> Result<(), Fail> {
    let mut space = space();
    let mut memory = space.memory();
    let sheet = firing(&mut memory, 16)?;
    assert_eq!(rt; sheet.count(), 16);
    assert_eq!(rt; place(&sheet, &memory, 3, 12), Ok(3));
    Ok(())
}

#[test]
fn a_full_log_and_ranges_outside_it_are_refused(rt: HostRuntime) -> Result<(), Fail> {
    let mut space = space();
    let mut memory = space.memory();
    let mut sheet = firing(&mut memory, 24)?;
    assert_eq!(rt;
        sheet.append(&mut memory, &BallotWalk, Tenths(0)),
        Err(LogFault::Full)
    );
    assert_eq!(rt; sheet.cut(&mut memory, 25), Err(LogFault::CutLength));
    assert_eq!(rt; place(&sheet, &memory, 4, 3), Err(LogFault::Backwards));
    assert_eq!(rt; place(&sheet, &memory, 0, 24), Err(LogFault::Beyond));
    assert_eq!(rt; place(&sheet, &memory, 0, 23), Ok(0));
    Ok(())
}

// Writes over a number of the index.
fn alter(rt: &impl Abort, numbers: &mut [u16], place: usize, number: u16) {
    assert!(rt; place < numbers.len());
    numbers[place] = number;
}

#[test]
fn an_altered_shape_number_is_refused(rt: HostRuntime) -> Result<(), Fail> {
    let mut space = space();
    let mut memory = space.memory();
    let sheet = firing(&mut memory, 16)?;
    alter(&rt, memory.shapes, 1, 1430);
    assert_eq!(rt; place(&sheet, &memory, 3, 12), Err(LogFault::Index));
    assert_eq!(rt; place(&sheet, &memory, 3, 7), Ok(3));
    Ok(())
}

// Entry 0 of block 1 is read where block 1 lies whole between two others, and where block 2 becomes full.
#[test]
fn an_altered_entry_is_refused(rt: HostRuntime) -> Result<(), Fail> {
    let mut space = space();
    let mut memory = space.memory();
    let mut sheet = firing(&mut memory, 23)?;
    alter(&rt, memory.entries, 13, 16);
    assert_eq!(rt; place(&sheet, &memory, 7, 16), Err(LogFault::Index));
    assert_eq!(rt;
        sheet.append(&mut memory, &BallotWalk, Tenths(2300)),
        Err(LogFault::Index)
    );
    assert_eq!(rt; sheet.count(), 23);
    alter(&rt, memory.entries, 13, 15);
    assert_eq!(rt;
        sheet.append(&mut memory, &BallotWalk, Tenths(2300)),
        Ok(24)
    );
    Ok(())
}

#[test]
fn each_refusal_has_its_number(rt: HostRuntime) {
    assert_eq!(rt; LogFault::Capacity.code(), 1);
    assert_eq!(rt; LogFault::ShortMemory.code(), 2);
    assert_eq!(rt; LogFault::Full.code(), 3);
    assert_eq!(rt; LogFault::CutLength.code(), 4);
    assert_eq!(rt; LogFault::Backwards.code(), 5);
    assert_eq!(rt; LogFault::Beyond.code(), 6);
    assert_eq!(rt; LogFault::Index.code(), 11);
}
