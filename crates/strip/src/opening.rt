// Opening a strip in place, and what it tells.
ghost use Rattle.std.specs.Prelude.{◌≡◌, ◌≤◌, [], ◌∷◌, length, drop, is_ok, if◌then◌else◌};
ghost use Rattle.strip.specs.Bits.{count_of};
ghost use Rattle.strip.specs.Outcomes.{opening_answer};
ghost use Rattle.strip.specs.Questions.{Opens};
ghost use Rattle.strip.specs.Of.Strip.{strip_bytes};

use crate::bits::{end_height, is_filled};
use crate::fault::StripFault;
use crate::opened::Strip;

impl<'a> Strip<'a> {
    // The empty strip.
    pub fn new() -> Self
        ensures { strip_bytes result ≡ 0 ∷ (0 ∷ []) }
    {
        Strip { bytes: &[0, 0] }
    }

    // Opens a strip in this place, or refuses the bytes and leaves the place as it was.
    pub fn open(&mut self, bytes: &'a [u8]) -> Result<(), StripFault>
        ensures value { result ≡ opening_answer bytes.now }
        ensures exact { Opens bytes.now result }
        ensures after { strip_bytes self.new ≡ (if is_ok result then bytes.now else strip_bytes self.old) }
    {
        check(bytes)?;
        self.bytes = bytes;
        Ok(())
    }

    // How many readings the strip is of.
    pub fn count(&self) -> usize
        ensures { result ≡ count_of (strip_bytes self.now) }
    {
        count_in(self.bytes)
    }

    // The bytes behind the count, as part of the caller's own.
    pub fn bits(&self) -> &'a [u8]
        ensures { result.now ≡ drop 2 (strip_bytes self.now) }
    {
        &self.bytes[2..]
    }
}

// Whether bytes are a strip, checked from the front.
fn check(bytes: &[u8]) -> Result<(), StripFault>
    ensures { result ≡ opening_answer bytes.now }
{
    if bytes.len() < 2 {
        return Err(StripFault::TooFewBytes);
    }
    let count = count_in(bytes);
    if count > 32_768 {
        return Err(StripFault::TooManyReadings);
    }
    if bytes.len() != 2 + count.div_ceil(4) {
        return Err(StripFault::WrongLength);
    }
    if end_height(bytes, count) != Some(0) {
        return Err(StripFault::Unbalanced);
    }
    if !is_filled(bytes, count) {
        return Err(StripFault::Filling);
    }
    Ok(())
}

// The 16-bit count in front.
fn count_in(bytes: &[u8]) -> usize
    requires { 2 ≤ length bytes.now }
    ensures { result ≡ count_of bytes.now }
{
    usize::from(u16::from_be_bytes([bytes[0], bytes[1]]))
}
