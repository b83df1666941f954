// Prints the mask table: a line for each shape number, with the number and its eight cells.
#![tactic(auto)]

ghost use Rattle.std.specs.Prelude.{Some};

use shape::{MaskTable, fill_masks};
use std::{fmt, io};

// A shape number and its cells, printed as a line of the table.
#[derive(Clone, Copy)]
struct Row<'a> {
    number: u16,
    cells: &'a [u8],
}

impl fmt::Display for Row<'_> {
    ghost use Rattle.masks.specs.Lines.{line_text};

    ghost output = { λ row. Some (line_text row.number row.cells.now) };

    fn fmt<W: fmt::Write>(&self, f: &mut fmt::Formatter<W>) -> fmt::Result {
        let number = self.number;
        write!(f, "{number}")?;
        for &cell in self.cells {
            write!(f, " {cell:02x}")?;
        }
        Ok(())
    }
}

fn main(rt: HostRuntime) -> io::Result<()> {
    let mut cells = [0; 11_440];
    // Memory of this length is filled, and what was filled is opened: neither is refused.
    fill_masks(&mut cells).unwrap();
    MaskTable::new().open(&cells).unwrap();
    for (number, cells) in (0..1430).zip(cells.chunks_exact(8)) {
        println!(rt; "{}", Row { number, cells })?;
    }
    Ok(())
}
