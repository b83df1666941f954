// A number of a line, all of its text at once.
ghost use Rattle.std.specs.Prelude.{◌≡◌};
ghost use Rattle.console.specs.Numerals.{whole, NumberRead, SignedRead};

use crate::number::{NumberSoFar, signed};

// One to nine digits.
pub fn read_number(text: &[u8]) -> Option<u32>
    ensures { NumberRead text.now result }
{
    let mut number = NumberSoFar::blank();
    for &byte in text {
        match byte {
            digit @ b'0'..=b'9' if number.has_room() => {
                number = number.with_digit(digit - b'0');
            }
            _ => return None,
        }
    }
    whole(number)
}

// The number, if it has a digit.
fn whole(number: NumberSoFar) -> Option<u32>
    ensures { result ≡ whole number }
{
    (number.digits > 0).then_some(number.value)
}

// A minus sign may stand before the digits.
pub fn read_signed(text: &[u8]) -> Option<i32>
    ensures { SignedRead text.now result }
{
    match text {
        [b'-', digits @ ..] => {
            let size = read_number(digits)?;
            Some(signed(true, size))
        }
        _ => {
            let size = read_number(text)?;
            Some(signed(false, size))
        }
    }
}
