// Ballot numbers C(p,q) for p and q from 0 to 8: a table, and the recurrence that the table is proved against.
ghost use Rattle.std.specs.Prelude.{◌≡◌, ◌<◌, ◌≤◌, ◌⊎◌, ◌↔◌, true, IsErr, IfOk};
ghost use Rattle.paths.specs.Ballot.{ballot, BallotRule};
ghost use Rattle.shape.specs.Table.{right_rows};
ghost use Rattle.shape.specs.Outcomes.{ballot_answer};

use crate::fault::RangeFault;

// Row p of the table, by column q: the project's rules ask for nine structs with nine columns each.
#[derive(Clone, Copy)]
struct Row {
    columns: [u16; 9],
}

const ROWS: [Row; 9] = [
    Row {
        columns: [1, 1, 1, 1, 1, 1, 1, 1, 1],
    },
    Row {
        columns: [0, 1, 2, 3, 4, 5, 6, 7, 8],
    },
    Row {
        columns: [0, 0, 2, 5, 9, 14, 20, 27, 35],
    },
    Row {
        columns: [0, 0, 0, 5, 14, 28, 48, 75, 110],
    },
    Row {
        columns: [0, 0, 0, 0, 14, 42, 90, 165, 275],
    },
    Row {
        columns: [0, 0, 0, 0, 0, 42, 132, 297, 572],
    },
    Row {
        columns: [0, 0, 0, 0, 0, 0, 132, 429, 1001],
    },
    Row {
        columns: [0, 0, 0, 0, 0, 0, 0, 429, 1430],
    },
    Row {
        columns: [0, 0, 0, 0, 0, 0, 0, 0, 1430],
    },
];

// A square of the table, in row p and column q.
#[derive(Clone, Copy)]
struct Square {
    p: usize,
    q: usize,
    ghost p_within: { p ≤ 8 },
    ghost q_within: { q ≤ 8 },
}

impl Square {
    fn new(p: usize, q: usize) -> Result<Square, RangeFault>
        ensures refused { IsErr result ↔ ((8 < p) ⊎ (8 < q)) }
        ensures asked { IfOk result (λ square. (square.p ≡ p) × (square.q ≡ q)) }
    {
        if p > 8 || q > 8 {
            return Err(RangeFault::OutOfRange);
        }
        Ok(Square { p, q })
    }

    // Looks the ballot number up.
    fn entry(self) -> u16
        ensures { result ≡ ballot self.p self.q }
    {
        self.looked_up(&ROWS)
    }

    fn looked_up(self, rows: &[Row; 9]) -> u16
        requires { right_rows rows.now ≡ true }
        ensures { result ≡ ballot self.p self.q }
    {
        rows[self.p].columns[self.q]
    }

    // Works it out from its rule alone, by stepping back to C(0,0).
    fn stepped(self) -> u16
        ensures { result ≡ ballot self.p self.q }
    {
        let Square { p, q } = self;
        if q < p {
            return 0;
        }
        if q == 0 {
            return 1;
        }
        let left = Square { p, q: q - 1 }.stepped();
        if p == 0 {
            return left;
        }
        left + Square { p: p - 1, q }.stepped()
    }
}

// Looks C(p,q) up.
pub fn ballot_number(p: usize, q: usize) -> Result<u16, RangeFault>
    ensures { result ≡ ballot_answer p q }
{
    Ok(Square::new(p, q)?.entry())
}

// Works C(p,q) out from its rule alone.
pub fn ballot_by_rule(p: usize, q: usize) -> Result<u16, RangeFault>
    ensures value { result ≡ ballot_answer p q }
    ensures rule { BallotRule ballot }
{
    Ok(Square::new(p, q)?.stepped())
}

// A ballot number that is known to be in the table.
pub(crate) fn entry(p: usize, q: usize) -> u16
    requires p_within { p ≤ 8 }
    requires q_within { q ≤ 8 }
    ensures { result ≡ ballot p q }
{
    Square { p, q }.entry()
}

// What both give follows the recurrence of the ballot numbers: a theorem, with nothing to run.
pub fn ballot_numbers_follow_their_rule()
    ensures { BallotRule ballot }
{}
