// Lines and replies by example.
use crate::{Command, Done, Found, Hex, LineReader, Malformed, parse};
use std::test::Fail;

#[test]
fn reads_each_command(rt: HostRuntime) {
    assert_eq!(rt; parse(b"A -007"), Ok(Command::Append { tenths: -7 }));
    assert_eq!(rt;
        parse(b"P -0 3"),
        Ok(Command::AppendProbe {
            margin: 0,
            number: 3,
        })
    );
    assert_eq!(rt;
        parse(b"C 999999999"),
        Ok(Command::Cut { length: 999999999 })
    );
    assert_eq!(rt; parse(b"Q 0 12"), Ok(Command::Coldest { from: 0, to: 12 }));
    assert_eq!(rt; parse(b"H 1 2"), Ok(Command::Hottest { from: 1, to: 2 }));
    assert_eq!(rt; parse(b"W 2 1"), Ok(Command::Weakest { from: 2, to: 1 }));
    assert_eq!(rt; parse(b"S"), Ok(Command::Strip));
}

#[test]
fn refuses_other_lines(rt: HostRuntime) {
    for line in [
        "",
        "A",
        "A ",
        "A -",
        "A +1",
        "A 1 ",
        "A  1",
        " A 1",
        "A 1\r",
        "A 1-",
        "A 1234567890",
        "A 1 2",
        "C -1",
        "P 1",
        "P 1 -2",
        "Q 1",
        "Q -1 2",
        "Q 1 2 3",
        "s",
        "S ",
        "S 1",
        "SS",
        "a 1",
        "A 000000000000000000000000000001",
    ] {
        assert_eq!(rt; parse(line.as_bytes()), Err(Malformed));
    }
}

#[test]
fn knows_whether_a_line_has_begun(rt: HostRuntime) {
    let mut reader = LineReader::new();
    assert!(rt; !reader.has_bytes());
    reader.step(b'?');
    assert!(rt; reader.has_bytes());
    reader.reset();
    assert!(rt; !reader.has_bytes());
}

#[test]
fn writes_replies(rt: HostRuntime) -> Result<(), Fail> {
    assert_eq!(rt; Done(3).to_string(rt.alloc())?.as_str(), "ok 3");
    let found = Found {
        place: 1,
        reading: 2290,
    };
    assert_eq!(rt; found.to_string(rt.alloc())?.as_str(), "1 2290");
    assert_eq!(rt; Malformed.to_string(rt.alloc())?.as_str(), "no 23");
    Ok(())
}

#[test]
fn writes_bytes_in_hexadecimal(rt: HostRuntime) -> Result<(), Fail> {
    assert_eq!(rt; Hex(&[]).to_string(rt.alloc())?.as_str(), "");
    assert_eq!(rt;
        Hex(&[0x00, 0x04, 0xb4, 0x9f, 0xfa])
            .to_string(rt.alloc())?
            .as_str(),
        "0004b49ffa"
    );
    Ok(())
}
