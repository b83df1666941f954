// What a caller of the crate strip sees.
use firing_log::{LogFault, Space};
use reading::Tenths;
use shape::BallotWalk;
use strip::{QuestionFault, ReplayFault, Strip, StripFault, replay};

// The count of a strip that is opened.
fn opened(bytes: &[u8]) -> Result<usize, StripFault> {
    let mut strip = Strip::new();
    strip.open(bytes)?;
    Ok(strip.count())
}

#[test]
fn bytes_are_refused_in_checking_order(rt: HostRuntime) {
    assert_eq!(rt; opened(&[0x00]), Err(StripFault::TooFewBytes));
    assert_eq!(rt; opened(&[0x80, 0x01]), Err(StripFault::TooManyReadings));
    assert_eq!(rt; opened(&[0x80, 0x00]), Err(StripFault::WrongLength));
    assert_eq!(rt; opened(&[0x00, 0x01]), Err(StripFault::WrongLength));
    assert_eq!(rt; opened(&[0x00, 0x01, 0x40]), Err(StripFault::Unbalanced));
    assert_eq!(rt; opened(&[0x00, 0x01, 0xa0]), Err(StripFault::Filling));
    assert_eq!(rt; opened(&[0x00, 0x00]), Ok(0));
    assert_eq!(rt; opened(&[0x00, 0x04, 0xb4]), Ok(4));
}

#[test]
fn shorter_and_longer_strips_are_refused(rt: HostRuntime) {
    assert_eq!(rt; opened(&[0x00, 0x04]), Err(StripFault::WrongLength));
    assert_eq!(rt;
        opened(&[0x00, 0x04, 0xb4, 0x00]),
        Err(StripFault::WrongLength)
    );
}

// The refusals are those that `tools/second.py` gives.
#[test]
fn one_wrong_bit_is_refused(rt: HostRuntime) {
    let codes = [
        19, 20, 20, 20, 20, 20, 20, 20, 20, 20, 20, 20, 20, 20, 22, 21, 21, 21, 21, 21, 21, 21, 22,
        22,
    ];
    for (at, &code) in codes.iter().enumerate() {
        let mut bytes = [0x00, 0x03, 0xb0];
        bytes[at / 8] ^= 0x80 >> (at % 8);
        assert_eq!(rt; opened(&bytes).map_err(|fault| fault.code()), Err(code));
    }
}

#[test]
fn the_last_place_of_least_depth_is_the_coldest(rt: HostRuntime) {
    let mut strip = Strip::new();
    assert_eq!(rt; strip.coldest(0, 0), Err(QuestionFault::Beyond));
    strip.open(&[0x00, 0x04, 0xb4]).unwrap();
    assert_eq!(rt; strip.coldest(0, 3), Ok(1));
    assert_eq!(rt; strip.coldest(2, 3), Ok(3));
    assert_eq!(rt; strip.coldest(3, 2), Err(QuestionFault::Backwards));
    assert_eq!(rt; strip.coldest(3, 4), Err(QuestionFault::Beyond));
}

// The readings of a strip that is replayed into a log of this capacity.
fn replayed(bytes: &[u8], capacity: usize) -> Result<[i32; 4], ReplayFault> {
    let mut space = Space::<Tenths, 8, 1, 13>::new(Tenths(0));
    replay(bytes, capacity, &mut space.memory(), &BallotWalk)?;
    let [first, second, third, fourth, ..] = space.readings;
    Ok([first, second, third, fourth].map(|reading| reading.0))
}

#[test]
fn a_strip_is_replayed_or_the_side_that_refuses_is_told(rt: HostRuntime) {
    assert_eq!(rt;
        replayed(&[0x00, 0x04, 0xb4], 4),
        Ok([32_768, 32_767, 65_534, 65_533])
    );
    assert_eq!(rt;
        replayed(&[0x00, 0x04, 0xb4], 3),
        Err(ReplayFault::OfLog(LogFault::Full))
    );
    assert_eq!(rt;
        replayed(&[0x00, 0x04, 0xb4], 9),
        Err(ReplayFault::OfLog(LogFault::ShortMemory))
    );
    assert_eq!(rt;
        replayed(&[0x00, 0x01], 0),
        Err(ReplayFault::OfStrip(StripFault::WrongLength))
    );
}
