// A number of a line while its digits come in.
ghost use Rattle.std.specs.Prelude.{◌≡◌, ◌^◌, ◌<◌, true};
ghost use Rattle.console.specs.Numbers.{Small, blank, is_blank_number, has_room, negated, extended, signed_value};

const MOST_DIGITS: u8 = 9;

// The minus sign, how many digits have come, and the number that they write. The sign is a field of its own, since a zero may have one too,
// and only a number without one is a place or a length. That few digits write the number stands in contracts and in the reader, not in a type
// with a model: the guards of the reader, which borrow a number inside a state, have no proof then.
#[derive(Clone, Copy)]
pub(crate) struct NumberSoFar {
    pub(crate) minus: bool,
    pub(crate) digits: u8,
    pub(crate) value: u32,
}

impl NumberSoFar {
    pub(crate) fn blank() -> Self
        ensures { result ≡ blank }
    {
        NumberSoFar {
            minus: false,
            digits: 0,
            value: 0,
        }
    }

    // Whether neither the minus sign nor a digit has come.
    pub(crate) fn is_blank(self) -> bool
        ensures { result ≡ is_blank_number self }
    {
        !self.minus && self.digits == 0
    }

    // Whether one digit more may come.
    pub(crate) fn has_room(self) -> bool
        ensures { result ≡ has_room self }
    {
        self.digits < MOST_DIGITS
    }

    // The number after a minus sign.
    pub(crate) fn negated(self) -> Self
        ensures { result ≡ negated self }
    {
        NumberSoFar {
            minus: true,
            ..self
        }
    }

    // The number with one digit more at its end.
    pub(crate) fn with_digit(self, digit: u8) -> Self
        requires small { Small self }
        requires room { has_room self ≡ true }
        requires digit { digit < 10 }
        ensures value { result ≡ extended self digit }
        ensures small { Small result }
    {
        NumberSoFar {
            minus: self.minus,
            digits: self.digits + 1,
            value: self.value * 10 + u32::from(digit),
        }
    }

    pub(crate) fn signed(self) -> i32
        requires { Small self }
        ensures { result ≡ signed_value self.minus self.value }
    {
        signed(self.minus, self.value)
    }
}

// The number of this size, after a minus sign or none.
pub(crate) fn signed(minus: bool, size: u32) -> i32
    requires { size < 10 ^ 9 }
    ensures { result ≡ signed_value minus size }
{
    // Below 10^9: there is nothing that a `try_from` would refuse.
    let plain = size as i32;
    if minus { -plain } else { plain }
}
