// The two tokens of the protocol.
ghost use Rattle.std.specs.Prelude.{◌≡◌};
ghost use Rattle.bake.specs.Of.{clearance_count, start_of};

// Leave to load one bake. It may be let go unused.
#[derive(Drop)]
pub struct Clearance {
    pub(crate) count: usize,
}

impl Clearance {
    // The log's count when the clearance was given.
    pub fn count(&self) -> usize
        ensures { result ≡ clearance_count self.now }
    {
        self.count
    }
}

// A bake on the stone. It has no `Drop`, so that a program that neither unloads nor abandons it is refused.
pub struct Bake {
    pub(crate) start: usize,
}

impl Bake {
    // The place of the bake's first reading: the log's count when it was loaded.
    pub fn start(&self) -> usize
        ensures { result ≡ start_of self.now }
    {
        self.start
    }
}
