// The panel together with the line that is being read.
use crate::panel::Panel;
use console::LineReader;

mod input;

#[derive(Drop)]
pub struct Bench<'a> {
    pub panel: Panel<'a>,
    pub line: LineReader,
}
