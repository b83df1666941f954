// The three logs.
use crate::roll::Roll;
use reading::{Probe, Reversed, Tenths};
use shape::MaskTable;

mod commands;

// Every temperature stands in both logs of tenths, at the same place.
#[derive(Drop)]
pub struct Panel<'a> {
    pub table: MaskTable<'a>,
    pub cold: Roll<'a, Tenths>,
    pub hot: Roll<'a, Reversed<Tenths>>,
    pub probes: Roll<'a, Probe>,
}
