// Bits of a strip's bytes, most significant first.
ghost use Rattle.std.specs.Prelude.{◌≡◌, ◌+◌, ◌*◌, ◌<◌, ◌≤◌, [], ◌∷◌, length};
ghost use Rattle.strip.specs.Bits.{bit_at, count_of, strip_bits, height_after};
ghost use Rattle.strip.specs.Outcomes.{all_zero, filling};

use crate::octet::moved_byte;

// Bit `at`, counted over all bytes.
pub(crate) fn bit(bytes: &[u8], at: usize) -> bool
    requires { at < 8 * length bytes.now }
    ensures { result ≡ bit_at bytes.now at }
{
    (bytes[at / 8] >> (7 - at % 8)) % 2 == 1
}

// One bit further: a one leads up, a zero down, and never below the ground.
fn moved(height: usize, up: bool) -> Option<usize>
    requires { height < 65536 }
    ensures { result ≡ height_after height (up ∷ []) }
{
    if up {
        return Some(height + 1);
    }
    height.checked_sub(1)
}

// How high the two bits of each of `count` readings lead, if never below the ground: whole bytes first, then the bits of a last part.
pub(crate) fn end_height(bytes: &[u8], count: usize) -> Option<usize>
    requires counted { count ≡ count_of bytes.now }
    requires few { count ≤ 32768 }
    requires within { 16 + 2 * count ≤ 8 * length bytes.now }
    ensures { result ≡ height_after 0 (strip_bits bytes.now) }
{
    let whole = count / 4;
    let mut height = 0;
    for &byte in &bytes[2..2 + whole] {
        height = moved_byte(height, byte)?;
    }
    // Bits are read by number: no slice has them as elements.
    for at in 16 + 8 * whole..16 + 2 * count {
        height = moved(height, bit(bytes, at))?;
    }
    Some(height)
}

// Whether the filling bits behind `count` readings are zero.
pub(crate) fn is_filled(bytes: &[u8], count: usize) -> bool
    requires counted { count ≡ count_of bytes.now }
    requires few { (length bytes.now ≤ 8194) × (count ≤ 32768) }
    requires within { 16 + 2 * count ≤ 8 * length bytes.now }
    ensures { result ≡ all_zero (filling bytes.now) }
{
    (16 + 2 * count..8 * bytes.len()).all(|at| !bit(bytes, at))
}
