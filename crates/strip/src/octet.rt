// A byte of a strip as a whole, by tables that are each proved right by one test of all entries.
ghost use Rattle.std.specs.Prelude.{◌≡◌, ◌-◌, ◌<◌, ◌≤◌, true};
ghost use Rattle.strip.specs.Bits.{ones, height_after, LastLeast};
ghost use Rattle.strip.specs.Octet.{byte_bits, byte_depth, dip, right_dips, right_lows};

// How many of its bits are ones.
pub(crate) fn ones_in(byte: u8) -> usize
    ensures ones { result ≡ ones (byte_bits byte) }
    ensures few { result ≤ 8 }
{
    // No `From` makes a usize of a u32.
    byte.count_ones() as usize
}

// How deep each byte falls, by the byte. Apart from the lows, since no function reads both, and in one table opening takes 8 in 100 instructions more.
#[rattlefmt::skip]
const DIPS: [u8; 256] = [
    8, 7, 6, 6, 6, 5, 5, 5, 6, 5, 4, 4, 4, 4, 4, 4,
    6, 5, 4, 4, 4, 3, 3, 3, 4, 3, 3, 3, 3, 3, 3, 3,
    6, 5, 4, 4, 4, 3, 3, 3, 4, 3, 2, 2, 2, 2, 2, 2,
    4, 3, 2, 2, 2, 2, 2, 2, 2, 2, 2, 2, 2, 2, 2, 2,
    6, 5, 4, 4, 4, 3, 3, 3, 4, 3, 2, 2, 2, 2, 2, 2,
    4, 3, 2, 2, 2, 1, 1, 1, 2, 1, 1, 1, 1, 1, 1, 1,
    4, 3, 2, 2, 2, 1, 1, 1, 2, 1, 1, 1, 1, 1, 1, 1,
    2, 1, 1, 1, 1, 1, 1, 1, 1, 1, 1, 1, 1, 1, 1, 1,
    6, 5, 4, 4, 4, 3, 3, 3, 4, 3, 2, 2, 2, 2, 2, 2,
    4, 3, 2, 2, 2, 1, 1, 1, 2, 1, 1, 1, 1, 1, 1, 1,
    4, 3, 2, 2, 2, 1, 1, 1, 2, 1, 0, 0, 0, 0, 0, 0,
    2, 1, 0, 0, 0, 0, 0, 0, 0, 0, 0, 0, 0, 0, 0, 0,
    4, 3, 2, 2, 2, 1, 1, 1, 2, 1, 0, 0, 0, 0, 0, 0,
    2, 1, 0, 0, 0, 0, 0, 0, 0, 0, 0, 0, 0, 0, 0, 0,
    2, 1, 0, 0, 0, 0, 0, 0, 0, 0, 0, 0, 0, 0, 0, 0,
    0, 0, 0, 0, 0, 0, 0, 0, 0, 0, 0, 0, 0, 0, 0, 0,
];

// Looks up how deep a byte falls.
fn dip_in(dips: &[u8; 256], byte: u8) -> usize
    requires { right_dips dips.now ≡ true }
    ensures { result ≡ dip (byte_bits byte) }
{
    usize::from(dips[usize::from(byte)])
}

// How deep a byte falls: the least height from which it does not lead below the ground.
fn dip_of(byte: u8) -> usize
    ensures { result ≡ dip (byte_bits byte) }
{
    dip_in(&DIPS, byte)
}

// A whole byte further, and never below the ground.
pub(crate) fn moved_byte(height: usize, byte: u8) -> Option<usize>
    requires { height ≤ 65536 }
    ensures { result ≡ height_after height (byte_bits byte) }
{
    if height < dip_of(byte) {
        return None;
    }
    Some(height + 2 * ones_in(byte) - 8)
}

// The last of a byte's ones of least depth, counted from its first one, and the depth where the height before the byte is 8.
#[derive(Clone, Copy)]
pub(crate) struct Low {
    pub(crate) last: u8,
    pub(crate) depth: u8,
}

// By the byte; byte 0 has no ones.
#[rattlefmt::skip]
const LOWS: [Low; 256] = [
    Low { last: 0, depth: 0 }, Low { last: 0, depth: 2 }, Low { last: 0, depth: 3 }, Low { last: 0, depth: 3 },
    Low { last: 0, depth: 4 }, Low { last: 1, depth: 4 }, Low { last: 0, depth: 4 }, Low { last: 0, depth: 4 },
    Low { last: 0, depth: 5 }, Low { last: 1, depth: 4 }, Low { last: 1, depth: 5 }, Low { last: 1, depth: 5 },
    Low { last: 0, depth: 5 }, Low { last: 0, depth: 5 }, Low { last: 0, depth: 5 }, Low { last: 0, depth: 5 },
    Low { last: 0, depth: 6 }, Low { last: 1, depth: 4 }, Low { last: 1, depth: 5 }, Low { last: 1, depth: 5 },
    Low { last: 1, depth: 6 }, Low { last: 2, depth: 6 }, Low { last: 1, depth: 6 }, Low { last: 1, depth: 6 },
    Low { last: 0, depth: 6 }, Low { last: 2, depth: 6 }, Low { last: 0, depth: 6 }, Low { last: 0, depth: 6 },
    Low { last: 0, depth: 6 }, Low { last: 0, depth: 6 }, Low { last: 0, depth: 6 }, Low { last: 0, depth: 6 },
    Low { last: 0, depth: 7 }, Low { last: 1, depth: 4 }, Low { last: 1, depth: 5 }, Low { last: 1, depth: 5 },
    Low { last: 1, depth: 6 }, Low { last: 2, depth: 6 }, Low { last: 1, depth: 6 }, Low { last: 1, depth: 6 },
    Low { last: 1, depth: 7 }, Low { last: 2, depth: 6 }, Low { last: 2, depth: 7 }, Low { last: 2, depth: 7 },
    Low { last: 1, depth: 7 }, Low { last: 1, depth: 7 }, Low { last: 1, depth: 7 }, Low { last: 1, depth: 7 },
    Low { last: 0, depth: 7 }, Low { last: 2, depth: 6 }, Low { last: 2, depth: 7 }, Low { last: 2, depth: 7 },
    Low { last: 0, depth: 7 }, Low { last: 0, depth: 7 }, Low { last: 0, depth: 7 }, Low { last: 0, depth: 7 },
    Low { last: 0, depth: 7 }, Low { last: 0, depth: 7 }, Low { last: 0, depth: 7 }, Low { last: 0, depth: 7 },
    Low { last: 0, depth: 7 }, Low { last: 0, depth: 7 }, Low { last: 0, depth: 7 }, Low { last: 0, depth: 7 },
    Low { last: 0, depth: 8 }, Low { last: 1, depth: 4 }, Low { last: 1, depth: 5 }, Low { last: 1, depth: 5 },
    Low { last: 1, depth: 6 }, Low { last: 2, depth: 6 }, Low { last: 1, depth: 6 }, Low { last: 1, depth: 6 },
    Low { last: 1, depth: 7 }, Low { last: 2, depth: 6 }, Low { last: 2, depth: 7 }, Low { last: 2, depth: 7 },
    Low { last: 1, depth: 7 }, Low { last: 1, depth: 7 }, Low { last: 1, depth: 7 }, Low { last: 1, depth: 7 },
    Low { last: 1, depth: 8 }, Low { last: 2, depth: 6 }, Low { last: 2, depth: 7 }, Low { last: 2, depth: 7 },
    Low { last: 2, depth: 8 }, Low { last: 3, depth: 8 }, Low { last: 2, depth: 8 }, Low { last: 2, depth: 8 },
    Low { last: 1, depth: 8 }, Low { last: 3, depth: 8 }, Low { last: 1, depth: 8 }, Low { last: 1, depth: 8 },
    Low { last: 1, depth: 8 }, Low { last: 1, depth: 8 }, Low { last: 1, depth: 8 }, Low { last: 1, depth: 8 },
    Low { last: 0, depth: 8 }, Low { last: 2, depth: 6 }, Low { last: 2, depth: 7 }, Low { last: 2, depth: 7 },
    Low { last: 2, depth: 8 }, Low { last: 3, depth: 8 }, Low { last: 2, depth: 8 }, Low { last: 2, depth: 8 },
    Low { last: 0, depth: 8 }, Low { last: 3, depth: 8 }, Low { last: 0, depth: 8 }, Low { last: 0, depth: 8 },
    Low { last: 0, depth: 8 }, Low { last: 0, depth: 8 }, Low { last: 0, depth: 8 }, Low { last: 0, depth: 8 },
    Low { last: 0, depth: 8 }, Low { last: 3, depth: 8 }, Low { last: 0, depth: 8 }, Low { last: 0, depth: 8 },
    Low { last: 0, depth: 8 }, Low { last: 0, depth: 8 }, Low { last: 0, depth: 8 }, Low { last: 0, depth: 8 },
    Low { last: 0, depth: 8 }, Low { last: 0, depth: 8 }, Low { last: 0, depth: 8 }, Low { last: 0, depth: 8 },
    Low { last: 0, depth: 8 }, Low { last: 0, depth: 8 }, Low { last: 0, depth: 8 }, Low { last: 0, depth: 8 },
    Low { last: 0, depth: 9 }, Low { last: 1, depth: 4 }, Low { last: 1, depth: 5 }, Low { last: 1, depth: 5 },
    Low { last: 1, depth: 6 }, Low { last: 2, depth: 6 }, Low { last: 1, depth: 6 }, Low { last: 1, depth: 6 },
    Low { last: 1, depth: 7 }, Low { last: 2, depth: 6 }, Low { last: 2, depth: 7 }, Low { last: 2, depth: 7 },
    Low { last: 1, depth: 7 }, Low { last: 1, depth: 7 }, Low { last: 1, depth: 7 }, Low { last: 1, depth: 7 },
    Low { last: 1, depth: 8 }, Low { last: 2, depth: 6 }, Low { last: 2, depth: 7 }, Low { last: 2, depth: 7 },
    Low { last: 2, depth: 8 }, Low { last: 3, depth: 8 }, Low { last: 2, depth: 8 }, Low { last: 2, depth: 8 },
    Low { last: 1, depth: 8 }, Low { last: 3, depth: 8 }, Low { last: 1, depth: 8 }, Low { last: 1, depth: 8 },
    Low { last: 1, depth: 8 }, Low { last: 1, depth: 8 }, Low { last: 1, depth: 8 }, Low { last: 1, depth: 8 },
    Low { last: 1, depth: 9 }, Low { last: 2, depth: 6 }, Low { last: 2, depth: 7 }, Low { last: 2, depth: 7 },
    Low { last: 2, depth: 8 }, Low { last: 3, depth: 8 }, Low { last: 2, depth: 8 }, Low { last: 2, depth: 8 },
    Low { last: 2, depth: 9 }, Low { last: 3, depth: 8 }, Low { last: 3, depth: 9 }, Low { last: 3, depth: 9 },
    Low { last: 2, depth: 9 }, Low { last: 2, depth: 9 }, Low { last: 2, depth: 9 }, Low { last: 2, depth: 9 },
    Low { last: 1, depth: 9 }, Low { last: 3, depth: 8 }, Low { last: 3, depth: 9 }, Low { last: 3, depth: 9 },
    Low { last: 1, depth: 9 }, Low { last: 1, depth: 9 }, Low { last: 1, depth: 9 }, Low { last: 1, depth: 9 },
    Low { last: 1, depth: 9 }, Low { last: 1, depth: 9 }, Low { last: 1, depth: 9 }, Low { last: 1, depth: 9 },
    Low { last: 1, depth: 9 }, Low { last: 1, depth: 9 }, Low { last: 1, depth: 9 }, Low { last: 1, depth: 9 },
    Low { last: 0, depth: 9 }, Low { last: 2, depth: 6 }, Low { last: 2, depth: 7 }, Low { last: 2, depth: 7 },
    Low { last: 2, depth: 8 }, Low { last: 3, depth: 8 }, Low { last: 2, depth: 8 }, Low { last: 2, depth: 8 },
    Low { last: 2, depth: 9 }, Low { last: 3, depth: 8 }, Low { last: 3, depth: 9 }, Low { last: 3, depth: 9 },
    Low { last: 2, depth: 9 }, Low { last: 2, depth: 9 }, Low { last: 2, depth: 9 }, Low { last: 2, depth: 9 },
    Low { last: 0, depth: 9 }, Low { last: 3, depth: 8 }, Low { last: 3, depth: 9 }, Low { last: 3, depth: 9 },
    Low { last: 0, depth: 9 }, Low { last: 0, depth: 9 }, Low { last: 0, depth: 9 }, Low { last: 0, depth: 9 },
    Low { last: 0, depth: 9 }, Low { last: 0, depth: 9 }, Low { last: 0, depth: 9 }, Low { last: 0, depth: 9 },
    Low { last: 0, depth: 9 }, Low { last: 0, depth: 9 }, Low { last: 0, depth: 9 }, Low { last: 0, depth: 9 },
    Low { last: 0, depth: 9 }, Low { last: 3, depth: 8 }, Low { last: 3, depth: 9 }, Low { last: 3, depth: 9 },
    Low { last: 0, depth: 9 }, Low { last: 0, depth: 9 }, Low { last: 0, depth: 9 }, Low { last: 0, depth: 9 },
    Low { last: 0, depth: 9 }, Low { last: 0, depth: 9 }, Low { last: 0, depth: 9 }, Low { last: 0, depth: 9 },
    Low { last: 0, depth: 9 }, Low { last: 0, depth: 9 }, Low { last: 0, depth: 9 }, Low { last: 0, depth: 9 },
    Low { last: 0, depth: 9 }, Low { last: 0, depth: 9 }, Low { last: 0, depth: 9 }, Low { last: 0, depth: 9 },
    Low { last: 0, depth: 9 }, Low { last: 0, depth: 9 }, Low { last: 0, depth: 9 }, Low { last: 0, depth: 9 },
    Low { last: 0, depth: 9 }, Low { last: 0, depth: 9 }, Low { last: 0, depth: 9 }, Low { last: 0, depth: 9 },
    Low { last: 0, depth: 9 }, Low { last: 0, depth: 9 }, Low { last: 0, depth: 9 }, Low { last: 0, depth: 9 },
];

// Looks up the lowest of a byte's ones.
fn lowest_in(lows: &[Low; 256], byte: u8) -> Low
    requires right { right_lows lows.now ≡ true }
    requires some { 0 < ones (byte_bits byte) }
    ensures least { LastLeast (byte_depth byte) 0 (ones (byte_bits byte) - 1) result.last }
    ensures depth { result.depth ≡ byte_depth byte result.last }
{
    lows[usize::from(byte)]
}

// The lowest of a byte's ones.
pub(crate) fn lowest(byte: u8) -> Low
    requires { 0 < ones (byte_bits byte) }
    ensures least { LastLeast (byte_depth byte) 0 (ones (byte_bits byte) - 1) result.last }
    ensures depth { result.depth ≡ byte_depth byte result.last }
{
    lowest_in(&LOWS, byte)
}
