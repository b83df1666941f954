// What a caller of the crate shape sees.
use reading::Tenths;
use shape::{
    Answerer, BallotWalk, MaskTable, RangeFault, TableFault, ballot_by_rule, ballot_number,
    fill_masks, first_coldest_of, shape_number,
};
use std::process::Abort;

const WORKED: [Tenths; 8] = [
    Tenths(5),
    Tenths(3),
    Tenths(4),
    Tenths(1),
    Tenths(9),
    Tenths(2),
    Tenths(6),
    Tenths(8),
];

const FALLING: [Tenths; 8] = [
    Tenths(8),
    Tenths(7),
    Tenths(6),
    Tenths(5),
    Tenths(4),
    Tenths(3),
    Tenths(2),
    Tenths(1),
];

// From the third reading on it only warms, which adds nothing to the number.
const BEGUN: [Tenths; 8] = [
    Tenths(2),
    Tenths(1),
    Tenths(3),
    Tenths(4),
    Tenths(5),
    Tenths(6),
    Tenths(7),
    Tenths(8),
];

#[test]
fn ballot_numbers_go_to_eight(rt: HostRuntime) {
    assert_eq!(rt; ballot_number(7, 8), Ok(1430));
    assert_eq!(rt; ballot_number(9, 8), Err(RangeFault::OutOfRange));
    assert_eq!(rt; ballot_number(8, 9), Err(RangeFault::OutOfRange));
    assert_eq!(rt; ballot_by_rule(7, 8), Ok(1430));
    assert_eq!(rt; ballot_by_rule(9, 8), Err(RangeFault::OutOfRange));
    assert_eq!(rt; ballot_by_rule(8, 9), Err(RangeFault::OutOfRange));
}

#[test]
fn known_numbers(rt: HostRuntime) {
    assert_eq!(rt; shape_number(&WORKED), 1270);
    assert_eq!(rt; shape_number(&[Tenths(4); 8]), 0);
    assert_eq!(rt; shape_number(&FALLING), 1429);
    assert_eq!(rt; shape_number(&BEGUN), 1001);
    assert_eq!(rt; shape_number(&BEGUN[0..2]), 1001);
}

fn worked_answers<B: Answerer>(rt: &impl Abort, answerer: &B) {
    assert_eq!(rt; answerer.first_coldest(1270, 1, 5), Ok(3));
    assert_eq!(rt; answerer.first_coldest(1270, 4, 7), Ok(5));
    assert_eq!(rt;
        answerer.first_coldest(1430, 0, 0),
        Err(RangeFault::OutOfRange)
    );
    assert_eq!(rt;
        answerer.first_coldest(0, 0, 8),
        Err(RangeFault::OutOfRange)
    );
    assert_eq!(rt;
        answerer.first_coldest(0, 5, 4),
        Err(RangeFault::OutOfRange)
    );
    assert_eq!(rt; first_coldest_of(answerer, &WORKED, 1, 5), Ok(3));
}

#[test]
fn the_walk_answers(rt: HostRuntime) {
    worked_answers(&rt, &BallotWalk);
}

fn opened_answers(rt: &impl Abort, cells: &[u8]) {
    let mut table = MaskTable::new();
    assert_eq!(rt; table.open(cells), Ok(()));
    worked_answers(rt, &table);
}

#[test]
fn the_table_answers(rt: HostRuntime) {
    worked_answers(&rt, &MaskTable::new());
    let mut cells = [0; 11_440];
    assert_eq!(rt; fill_masks(&mut cells), Ok(()));
    opened_answers(&rt, &cells);
}

fn opening(cells: &[u8]) -> Result<(), TableFault> {
    MaskTable::new().open(cells)
}

#[test]
fn a_table_has_its_length(rt: HostRuntime) {
    let wrong = TableFault::WrongLength;
    let mut short = [0; 11_439];
    assert_eq!(rt; fill_masks(&mut short), Err(wrong));
    assert_eq!(rt; opening(&short), Err(wrong));
    let mut long = [0; 11_441];
    assert_eq!(rt; fill_masks(&mut long), Err(wrong));
    assert_eq!(rt; opening(&long), Err(wrong));
    assert_eq!(rt; wrong.code(), 14);
}

#[test]
fn the_first_wrong_cell_is_named(rt: HostRuntime) {
    let mut cells = [0; 11_440];
    assert_eq!(rt; fill_masks(&mut cells), Ok(()));
    cells[8 * 700 + 3] ^= 1;
    cells[8 * 701] ^= 1;
    let wrong = TableFault::WrongCell {
        number: 700,
        end: 3,
    };
    assert_eq!(rt; opening(&cells), Err(wrong));
    assert_eq!(rt; wrong.code(), 15);
}
