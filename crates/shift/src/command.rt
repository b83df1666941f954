// What a line of a shift asks for.
ghost use Rattle.std.specs.Prelude.{◌≡◌, IfErr};
ghost use Rattle.shift.specs.declared.refusal.Refusal.TheVariants.{Malformed};

use crate::refusal::Refusal;
use reading::Tenths;
use std::str::{FromStr, Split};

#[derive(Clone, Copy, Debug, PartialEq, Eq)]
pub enum Command<K> {
    Append { reading: K },
    Cut { length: usize },
    Clear { window: usize, set: K },
    Load,
    Unload,
    Abandon,
}

// A line's words stand one space apart.
impl FromStr for Command<Tenths> {
    type Err = Refusal;

    ghost from_str_gives = { λ _ command. IfErr command (λ refusal. refusal ≡ Malformed) };

    fn from_str(line: &str) -> Result<Self, Refusal> {
        let mut words = line.split(' ');
        let command = match words.next().ok_or(Refusal::Malformed)? {
            "A" => Command::Append {
                reading: Tenths(value(&mut words)?),
            },
            "C" => Command::Cut {
                length: value(&mut words)?,
            },
            "K" => Command::Clear {
                window: value(&mut words)?,
                set: Tenths(value(&mut words)?),
            },
            "L" => Command::Load,
            "U" => Command::Unload,
            "X" => Command::Abandon,
            _ => return Err(Refusal::Malformed),
        };
        if words.next().is_some() {
            return Err(Refusal::Malformed);
        }
        Ok(command)
    }
}

// The value that the next word is.
fn value<T: FromStr>(words: &mut Split<'_, char>) -> Result<T, Refusal>
where
    T::Err: Drop,
    ensures { IfErr result (λ refusal. refusal ≡ Malformed) }
{
    let word = words.next().ok_or(Refusal::Malformed)?;
    word.parse().map_err(|_| Refusal::Malformed)
}
