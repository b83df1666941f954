// Bytes in hexadecimal.
ghost use Rattle.std.specs.Prelude.{◌≡◌, ◌<◌, Some};
ghost use Rattle.std.specs.Fmt.{WritesOnOk};
ghost use Rattle.console.specs.Hex.{hex_digit, byte_text, hex_text};

use std::fmt;

// Each byte is written as two lower-case digits, with nothing between.
#[derive(Clone, Copy)]
pub struct Hex<'a>(pub &'a [u8]);

impl fmt::Display for Hex<'_> {
    ghost output = { λ hex. Some (hex_text hex.0.now) };

    fn fmt<W: fmt::Write>(&self, f: &mut fmt::Formatter<W>) -> fmt::Result {
        for &byte in self.0 {
            write_byte(f, byte)?;
        }
        Ok(())
    }
}

// Digit by digit: by `{:02x}` a text takes two to three and a half times as long.
fn write_byte<W: fmt::Write>(f: &mut fmt::Formatter<W>, byte: u8) -> fmt::Result
    ensures { WritesOnOk W.Write.write_str_gives f.old result (byte_text byte) f.new }
{
    f.write_char(digit(byte / 16))?;
    f.write_char(digit(byte % 16))
}

fn digit(value: u8) -> char
    requires { value < 16 }
    ensures { result ≡ hex_digit value }
{
    char::from_digit(u32::from(value), 16).unwrap()
}
