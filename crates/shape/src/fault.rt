// Refusals of this crate.
ghost use Rattle.std.specs.Prelude.{◌≡◌};
ghost use Rattle.shape.specs.Outcomes.{range_code, table_code};

#[derive(Clone, Copy, PartialEq, Eq, Debug)]
pub enum RangeFault {
    // A shape number above 1,429, a place above 7, a range that runs backward, or a ballot number outside the table.
    OutOfRange = 13,
}

impl RangeFault {
    pub fn code(self) -> u8
        ensures { result ≡ range_code self }
    {
        self as u8
    }
}

#[derive(Clone, Copy, PartialEq, Eq, Debug)]
pub enum TableFault {
    // A mask table has 11,440 cells.
    WrongLength,
    // The first cell that differs from the table's, by number and then by end.
    WrongCell { number: u16, end: u8 },
}

impl TableFault {
    // A case with fields has no number for `as` to give.
    pub fn code(self) -> u8
        ensures { result ≡ table_code self }
    {
        match self {
            TableFault::WrongLength => 14,
            TableFault::WrongCell { .. } => 15,
        }
    }
}
