// The bytes of the line that is being read, as far as there is room for them.
ghost use Rattle.std.specs.Prelude.{◌≡◌, ◌≤◌, [], ◌∷◌, ◌++◌, ◌↔◌, IsTrue, length, take};
ghost use Rattle.console.specs.Buffers.{bytes_of};

// Two digits for each byte of the longest strip, of 32,768 readings, and one byte more: a line that fills this is no strip's, and of a
// longer one this much is kept.
const TEXT: usize = 2 * (2 + 32_768 / 4) + 1;

// The line's bytes are the first `len`. An array with its length, since the library's vector of fixed capacity writes over each byte
// when it is cleared: here that takes one step.
#[derive(Drop)]
pub struct LineBuffer {
    text: [u8; TEXT],
    len: usize,
}

impl LineBuffer {
    pub fn new() -> Self
        ensures { bytes_of result ≡ [] }
    {
        LineBuffer {
            text: [0; TEXT],
            len: 0,
        }
    }

    // Makes it ready for the next line.
    pub fn clear(&mut self)
        ensures { bytes_of self.new ≡ [] }
    {
        self.len = 0;
    }

    // Takes one byte of the line more; what is beyond the room is let go.
    pub fn push(&mut self, byte: u8)
        ensures { bytes_of self.new ≡ take 16389 (bytes_of self.old ++ (byte ∷ [])) }
    {
        // Read once: behind the write of a byte the length would be read from memory again.
        let len = self.len;
        if len < TEXT {
            self.text[len] = byte;
            self.len = len + 1;
        }
    }

    // Whether there is room for no byte more.
    pub fn is_full(&self) -> bool
        ensures value { IsTrue result ↔ (length (bytes_of self.now) ≡ 16389) }
        ensures fits { length (bytes_of self.now) ≤ 16389 }
    {
        self.len >= TEXT
    }

    pub fn bytes(&self) -> &[u8]
        ensures { result.now ≡ bytes_of self.now }
    {
        &self.text[..self.len.min(TEXT)]
    }
}
