// The device's memory for one log, lent for the time of a call.

// How many entries a block has room for, one for each level: entry j covers 2^j blocks, and a log has at most 4,096.
pub(crate) const LEVELS: usize = 13;

// Longer slices than the capacity asks for are allowed; what lies beyond keeps its values.
// Three slices and no slice of blocks: the device's memory is laid out so, and C hands it over so.
#[derive(Drop)]
pub struct Memory<'a, K> {
    // One reading for each place of the capacity.
    pub readings: &'a mut [K],
    // One shape number for each block of eight places begun.
    pub shapes: &'a mut [u16],
    // Thirteen places for each of these blocks: entry j of block b, at 13 × b + j, is the first coldest place of the 2^j blocks that end with b.
    pub entries: &'a mut [u16],
}
