// The reader of one line: a machine that is fed the line's bytes one after another, and then says what the line asks for.
ghost use Rattle.std.specs.Prelude.{◌≡◌, ℕ, List, [], length, nat_lt};
ghost use Rattle.console.specs.Grammar.{Answers};
ghost use Rattle.console.specs.States.{Sound, next, begun, answer};

use crate::command::{Command, Malformed};
use crate::number::NumberSoFar;
use crate::state::State;

#[derive(Drop)]
pub struct LineReader {
    state: State,
    ghost sound: { Sound state },
}

impl LineReader {
    ghost use Rattle.console.specs.Reading.{state_of, HasRead};

    pub fn new() -> Self
        ensures { HasRead result [] }
    {
        LineReader {
            state: State::Start,
        }
    }

    // Makes the reader ready for the next line.
    pub fn reset(&mut self)
        ensures { HasRead self.new [] }
    {
        self.state = State::Start;
    }

    // Takes one byte of the line more. The byte that ends a line is no byte of it.
    pub fn step(&mut self, byte: u8)
        ensures { state_of self.new ≡ next (state_of self.old) byte }
    {
        self.state = match (self.state, byte) {
            (State::Start, letter) => State::named(char::from(letter)),
            (State::Named(letter), b' ') => State::First(letter, NumberSoFar::blank()),
            (State::First(letter, n), b'-') if n.is_blank() => State::First(letter, n.negated()),
            (State::First(letter, n), digit @ b'0'..=b'9') if n.has_room() => {
                State::First(letter, n.with_digit(digit - b'0'))
            }
            (State::First(letter, n), b' ') if n.digits > 0 => {
                State::Second(letter, n, NumberSoFar::blank())
            }
            (State::Second(letter, m, n), digit @ b'0'..=b'9') if n.has_room() => {
                State::Second(letter, m, n.with_digit(digit - b'0'))
            }
            _ => State::Refused,
        };
    }

    // Whether the line has a byte yet.
    pub fn has_bytes(&self) -> bool
        ensures value { result ≡ begun (state_of self.now) }
        ensures reads { (bs : List ℕ) → HasRead self.now bs → result ≡ nat_lt 0 (length bs) }
    {
        self.state.has_begun()
    }

    // What the line asks for, if the bytes so far are all of it.
    pub fn finish(&self) -> Result<Command, Malformed>
        ensures value { result ≡ answer (state_of self.now) }
        ensures reads { (bs : List ℕ) → HasRead self.now bs → Answers bs result }
    {
        self.state.answer()
    }
}
