// Refusals of the calls on a log.
ghost use Rattle.std.specs.Prelude.{◌≡◌};
ghost use Rattle.firing_log.specs.Steps.{log_code};

#[derive(Clone, Copy, PartialEq, Eq, Debug)]
pub enum LogFault {
    // The capacity is 0 or above 32,768.
    Capacity = 1,
    // The memory handed in is too short for the capacity.
    ShortMemory = 2,
    // The count equals the capacity.
    Full = 3,
    // The length to cut to is above the count.
    CutLength = 4,
    // The range's first place is above its last.
    Backwards = 5,
    // The range's last place is not below the count.
    Beyond = 6,
    // A shape number that is read is above 1,429, or an entry that is read names a place outside its blocks.
    Index = 11,
    // The output is shorter than the strip.
    ShortOutput = 17,
}

impl LogFault {
    pub fn code(self) -> u8
        ensures { result ≡ log_code self }
    {
        self as u8
    }
}
