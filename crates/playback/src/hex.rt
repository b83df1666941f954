// Bytes read from hexadecimal digits, of either case.
ghost use Rattle.playback.specs.Digits.{DigitRead, ByteRead, Decoded};

use arrayvec::ArrayVec;

// The bytes of a text of two digits for each, if there is room for them.
// By digits and not by the library's hex, which asks for memory of just the right length and tells apart errors that are one here.
pub fn decode<const ROOM: usize>(text: &[u8]) -> Option<ArrayVec<u8, ROOM>>
    ensures { Decoded text.now ROOM result }
{
    let (pairs, []) = text.as_chunks::<2>() else {
        return None;
    };
    let mut bytes = ArrayVec::new();
    for &[high, low] in pairs {
        bytes.try_push(byte(high, low)?).ok()?;
    }
    Some(bytes)
}

fn byte(high: u8, low: u8) -> Option<u8>
    ensures { ByteRead high low result }
{
    Some(16 * digit(high)? + digit(low)?)
}

fn digit(character: u8) -> Option<u8>
    ensures { DigitRead character result }
{
    let value = char::from(character).to_digit(16)?;
    // Below 16: there is nothing that a `try_from` would refuse.
    Some(value as u8)
}
