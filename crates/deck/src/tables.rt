// The caller's own mask table. The calls on logs do not need it: they have the table as a constant.
ghost use Rattle.std.specs.Prelude.{◌≡◌};
ghost use Rattle.deck.specs.Faults.{returned};
ghost use Rattle.deck.specs.Strips.{masks_filled, masks_opened};

use crate::fault::{Refusal, status};
use shape::{MaskTable, TableFault, fill_masks};

#[unsafe(no_mangle)]
pub extern "C" fn deck_masks_fill(cells: &mut [u8]) -> u32
    ensures { (result, cells.new) ≡ masks_filled cells.old }
{
    status(fill_masks(cells).map_err(Refusal::from))
}

#[unsafe(no_mangle)]
pub extern "C" fn deck_masks_open(cells: &[u8], number: &mut u16, end: &mut u8) -> u32
    ensures { (result, number.new, end.new) ≡ masks_opened cells.now number.old end.old }
{
    let mut table = MaskTable::new();
    let answer = table.open(cells);
    if let Err(
        TableFault::WrongCell {
            number: wrong,
            end: at,
        },
    ) = answer
    {
        *number = wrong;
        *end = at;
    }
    status(answer.map_err(Refusal::from))
}
