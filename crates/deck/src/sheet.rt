// What a caller in C keeps of a log besides its memory.

mod keeping;

// The two numbers of a log's sheet, as plain numbers: a caller may have written anything here.
#[repr(C)]
#[derive(Clone, Copy)]
pub struct DeckSheet {
    pub capacity: usize,
    pub count: usize,
}
