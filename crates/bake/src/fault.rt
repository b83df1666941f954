// Refusals of the calls of a bake.
ghost use Rattle.std.specs.Prelude.{◌≡◌};
ghost use Rattle.bake.specs.Faults.{bake_code};

#[derive(Clone, Copy, PartialEq, Eq, Debug)]
pub enum BakeFault {
    // The memory handed in is too short for the log's capacity.
    ShortMemory = 2,
    // The window is 0 or above the count.
    Window = 7,
    // The count is below the one that the clearance or the bake keeps: the log was cut.
    CutBack = 8,
    // More than 60 readings came after the clearance.
    Late = 9,
    // No reading came after the load.
    NothingBaked = 10,
    // An index number of the log that is read is wrong.
    Index = 11,
    // The coldest reading of the window is colder than the set one.
    TooCold = 12,
}

impl BakeFault {
    pub fn code(self) -> u8
        ensures { result ≡ bake_code self }
    {
        self as u8
    }
}

// A refusal that hands the clearance or the bake back; it may be let go only where that may.
#[derive(Drop)]
pub struct Refused<T> {
    pub fault: BakeFault,
    pub token: T,
}
