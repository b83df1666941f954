// The states of the line reader.
ghost use Rattle.std.specs.Prelude.{◌≡◌};
ghost use Rattle.console.specs.Numbers.{Small};
ghost use Rattle.console.specs.States.{named, begun, Sound, no_number, one_number, two_numbers, answer};

use crate::command::{Command, Malformed};
use crate::number::NumberSoFar;

// The letter that a line begins with.
#[derive(Clone, Copy)]
pub(crate) enum Letter {
    A,
    C,
    H,
    P,
    Q,
    S,
    W,
}

// How far a line has come: nothing of it, its letter, its first number or its second, or too far for any command.
#[derive(Clone, Copy)]
pub(crate) enum State {
    Start,
    Named(Letter),
    First(Letter, NumberSoFar),
    Second(Letter, NumberSoFar, NumberSoFar),
    Refused,
}

impl State {
    // The state after the first character of a line.
    pub(crate) fn named(letter: char) -> State
        ensures { result ≡ named letter }
    {
        match letter {
            'A' => State::Named(Letter::A),
            'C' => State::Named(Letter::C),
            'H' => State::Named(Letter::H),
            'P' => State::Named(Letter::P),
            'Q' => State::Named(Letter::Q),
            'S' => State::Named(Letter::S),
            'W' => State::Named(Letter::W),
            _ => State::Refused,
        }
    }

    // Whether a byte has led here.
    pub(crate) fn has_begun(self) -> bool
        ensures { result ≡ begun self }
    {
        !matches!(self, State::Start)
    }

    // The right answer to a line that ends in this state.
    pub(crate) fn answer(self) -> Result<Command, Malformed>
        requires { Sound self }
        ensures { result ≡ answer self }
    {
        match self {
            State::Named(letter) => letter.alone(),
            State::First(letter, n) if n.digits > 0 => letter.of_one(n),
            State::Second(letter, m, n) if n.digits > 0 => letter.of_two(m, n.value),
            _ => Err(Malformed),
        }
    }
}

impl Letter {
    // The command of a line with no number.
    pub(crate) fn alone(self) -> Result<Command, Malformed>
        ensures { result ≡ no_number self }
    {
        match self {
            Letter::S => Ok(Command::Strip),
            _ => Err(Malformed),
        }
    }

    // The command of a line with one number.
    pub(crate) fn of_one(self, n: NumberSoFar) -> Result<Command, Malformed>
        requires { Small n }
        ensures { result ≡ one_number self n.minus n.value }
    {
        match self {
            Letter::A => Ok(Command::Append { tenths: n.signed() }),
            Letter::C if !n.minus => Ok(Command::Cut { length: n.value }),
            _ => Err(Malformed),
        }
    }

    // The command of a line with two numbers.
    pub(crate) fn of_two(self, m: NumberSoFar, number: u32) -> Result<Command, Malformed>
        requires { Small m }
        ensures { result ≡ two_numbers self m.minus m.value number }
    {
        let from = m.value;
        match self {
            Letter::P => Ok(Command::AppendProbe {
                margin: m.signed(),
                number,
            }),
            Letter::Q if !m.minus => Ok(Command::Coldest { from, to: number }),
            Letter::H if !m.minus => Ok(Command::Hottest { from, to: number }),
            Letter::W if !m.minus => Ok(Command::Weakest { from, to: number }),
            _ => Err(Malformed),
        }
    }
}
