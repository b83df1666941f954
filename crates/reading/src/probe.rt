// Probe readings; what they do stands in `kind`.
ghost use Rattle.std.specs.Prelude.{◌<◌};

pub mod kind;

// The margin that one of eight probes reads. The derived order goes by the margin and then by the number.
#[derive(Clone, Copy, PartialEq, Eq, PartialOrd, Ord, Debug)]
pub struct Probe {
    margin: i32,
    number: u8,
    ghost known: { number < 8 },
}
