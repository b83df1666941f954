// Opening a log.
ghost use Rattle.std.specs.Prelude.{◌≡◌, ◌≤◌};
ghost use Rattle.firing_log.specs.State.{too_short};
ghost use Rattle.firing_log.specs.Steps.{opened};
ghost use Rattle.firing_log.specs.Of.{with_memory};

use crate::fault::LogFault;
use crate::memory::{LEVELS, Memory};
use crate::sheet::Sheet;

impl Sheet {
    // A new log: nothing is written, whatever the memory holds.
    pub fn open<K>(capacity: usize, memory: &Memory<'_, K>) -> Result<Sheet, LogFault>
        ensures { with_memory memory.now result ≡ opened capacity memory.now.readings.now memory.now.shapes.now memory.now.entries.now }
    {
        let sheet = Sheet::resume(capacity, 0).ok_or(LogFault::Capacity)?;
        if is_short(capacity, memory) {
            return Err(LogFault::ShortMemory);
        }
        Ok(sheet)
    }
}

// Whether memory is too short for a capacity.
pub(crate) fn is_short<K>(capacity: usize, memory: &Memory<'_, K>) -> bool
    requires { capacity ≤ 32768 }
    ensures { result ≡ too_short capacity memory.now.readings.now memory.now.shapes.now memory.now.entries.now }
{
    let blocks = capacity.div_ceil(8);
    memory.readings.len() < capacity
        || memory.shapes.len() < blocks
        || memory.entries.len() < LEVELS * blocks
}
