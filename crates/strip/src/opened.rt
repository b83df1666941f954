// A strip that was opened: bytes of the caller's that are a strip.
ghost use Rattle.std.specs.Prelude.{◌≡◌, true};
ghost use Rattle.strip.specs.Outcomes.{accepted};

// It borrows its bytes, and is at first the empty strip.
#[derive(Clone, Copy)]
pub struct Strip<'a> {
    pub(crate) bytes: &'a [u8],
    ghost sound: { accepted bytes.now ≡ true },
}
