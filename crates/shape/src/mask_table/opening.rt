// Filling memory with the mask table, and opening a table once every cell of it is checked.
ghost use Rattle.std.specs.Prelude.{◌≡◌, is_ok, if◌then◌else◌, Some, None, OnOk};
ghost use Rattle.shape.specs.Masks.{all_cells, filling_answer, filled, opening_answer, Opening};
ghost use Rattle.shape.specs.Of.MaskTable.{table_cells};

use crate::fault::TableFault;
use crate::mask_table::MaskTable;
use crate::walk::path_mask;

// 1,430 numbers by eight ends.
const CELLS: usize = 11_440;

// Writes the mask table into memory of its length.
pub fn fill_masks(cells: &mut [u8]) -> Result<(), TableFault>
    ensures value { result ≡ filling_answer cells.old }
    ensures after { cells.new ≡ filled cells.old }
{
    if cells.len() != CELLS {
        return Err(TableFault::WrongLength);
    }
    for (k, cell) in cells.iter_mut().enumerate() {
        // The quotient is below 1,430, so there is nothing that a `try_from` would refuse.
        *cell = path_mask((k / 8) as u16, k % 8);
    }
    Ok(())
}

impl<'a> MaskTable<'a> {
    // No table is open.
    pub fn new() -> Self
        ensures { table_cells result ≡ None }
    {
        MaskTable { cells: None }
    }

    // Opens a table in this place, or refuses it and leaves the place as it was.
    pub fn open(&mut self, cells: &'a [u8]) -> Result<(), TableFault>
        ensures value { result ≡ opening_answer cells.now }
        ensures cases { Opening cells.now result }
        ensures after { table_cells self.new ≡ (if is_ok result then Some cells.now else table_cells self.old) }
    {
        check_cells(cells)?;
        self.cells = Some(cells);
        Ok(())
    }
}

// Compares each cell with the path of its number and end, up to the first that differs.
// By the project's rules these are loops over the numbers and the ends, left by a label.
fn check_cells(cells: &[u8]) -> Result<(), TableFault>
    ensures value { result ≡ opening_answer cells.now }
    ensures right { OnOk result (cells.now ≡ all_cells) }
{
    if cells.len() != CELLS {
        return Err(TableFault::WrongLength);
    }
    'cells: {
        for number in 0..1430u16 {
            for end in 0..8u8 {
                let place = usize::from(end);
                if cells[8 * usize::from(number) + place] != path_mask(number, place) {
                    break 'cells Err(TableFault::WrongCell { number, end });
                }
            }
        }
        Ok(())
    }
}
