// A place for a mask table, which answers from the table that is open in it, and by the ballot walk while none is.
ghost use Rattle.shape.specs.Masks.{RightTable};

mod answering;
mod opening;

pub use opening::fill_masks;

// The cells are borrowed: the path of number t at end j is the byte at 8 * t + j. No wrong table is ever open.
#[derive(Clone, Copy)]
pub struct MaskTable<'a> {
    cells: Option<&'a [u8]>,
    ghost right: { RightTable cells },
}
