// What a log keeps besides the memory that is handed to each call. Neither memory nor answerer is kept, since each call is handed its own.
ghost use Rattle.std.specs.Prelude.{◌≡◌, ◌≤◌};

// The largest capacity: places fit 16 bits, and thirteen entries cover all blocks.
pub(crate) const MOST_READINGS: usize = 32_768;

#[derive(Drop)]
pub struct Sheet {
    pub(crate) capacity: usize,
    pub(crate) count: usize,
    ghost bounded: { capacity ≤ 32768 },
    ghost within: { count ≤ capacity },
}

impl Sheet {
    // How many readings the log can hold.
    pub fn capacity(&self) -> usize
        ensures { result ≡ self.now.capacity }
    {
        self.capacity
    }

    // How many readings the log holds.
    pub fn count(&self) -> usize
        ensures { result ≡ self.now.count }
    {
        self.count
    }
}
