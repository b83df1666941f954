// What can be wrong with a probe reading.
ghost use Rattle.std.specs.Prelude.{◌≡◌};
ghost use Rattle.reading.specs.Faults.{code};

#[derive(Clone, Copy, PartialEq, Eq, Debug)]
pub enum ProbeFault {
    NoSuchProbe = 16,
}

impl ProbeFault {
    pub fn code(self) -> u8
        ensures { result ≡ code self }
    {
        self as u8
    }
}
