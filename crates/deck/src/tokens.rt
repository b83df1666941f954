// The tokens of a bake as a caller in C keeps them. C can copy or forge them: what the crate `bake` keeps by its types is looked at here in `held`.
ghost use Rattle.std.specs.Prelude.{◌≡◌, ◌≢◌, ◌↔◌, IsTrue, MatchResult};

use crate::fault::DeckFault;

// Leave to load one bake, held from the clearing to the load.
// C has no Option: a number says whether the count means anything.
#[repr(C)]
#[derive(Clone, Copy)]
pub struct DeckClearance {
    pub count: usize,
    pub held: u32,
}

impl DeckClearance {
    // The count that a clearance keeps, if one is held.
    pub(crate) fn kept(&self) -> Result<usize, DeckFault>
        ensures { MatchResult result (λ count. (self.now.held ≡ 1) × (count ≡ self.now.count)) (λ fault. (fault ≡ DeckFault.NoClearance) × (self.now.held ≢ 1)) }
    {
        kept(self.held, self.count, DeckFault::NoClearance)
    }
}

// A bake on the stone, held from the load until it is unloaded or abandoned.
// C has no Option: a number says whether the start means anything.
#[repr(C)]
#[derive(Clone, Copy)]
pub struct DeckBake {
    pub start: usize,
    pub held: u32,
}

impl DeckBake {
    pub(crate) fn is_held(&self) -> bool
        ensures { IsTrue result ↔ (self.now.held ≡ 1) }
    {
        self.held == 1
    }

    // The start that a bake keeps, if one is held.
    pub(crate) fn kept(&self) -> Result<usize, DeckFault>
        ensures { MatchResult result (λ start. (self.now.held ≡ 1) × (start ≡ self.now.start)) (λ fault. (fault ≡ DeckFault.NoBake) × (self.now.held ≢ 1)) }
    {
        kept(self.held, self.start, DeckFault::NoBake)
    }
}

// What a token keeps, or the refusal where it is not held.
fn kept(held: u32, value: usize, fault: DeckFault) -> Result<usize, DeckFault>
    ensures { MatchResult result (λ given. (held ≡ 1) × (given ≡ value)) (λ refused. (refused ≡ fault) × (held ≢ 1)) }
{
    if held == 1 { Ok(value) } else { Err(fault) }
}
