// What a caller of the crate learns and sees.
ghost use Rattle.std.specs.Prelude.{◌≡◌, true, IfOk};

use super::*;
use std::test::Fail;

// At equal margins the lower probe is the colder one, and in the reverse order the warmer.
fn tie() -> Result<bool, ProbeFault>
    ensures { IfOk result (λ b. b ≡ true) }
{
    let low = Probe::new(-15, 1)?;
    let high = Probe::new(-15, 2)?;
    Ok(low.is_colder(high) && Reversed(high).is_colder(Reversed(low)))
}

#[test]
fn a_tie_goes_to_the_lower_probe(rt: HostRuntime) -> Result<(), Fail> {
    assert!(rt; tie()?);
    Ok(())
}

#[test]
fn there_are_eight_probes(rt: HostRuntime) -> Result<(), Fail> {
    assert_eq!(rt; Probe::new(-15, 7)?.number(), 7);
    assert_eq!(rt; Probe::new(-15, 8), Err(ProbeFault::NoSuchProbe));
    assert_eq!(rt; ProbeFault::NoSuchProbe.code(), 16);
    Ok(())
}

#[test]
fn prints_the_reading_inside(rt: HostRuntime) -> Result<(), Fail> {
    let twice = Reversed(Reversed(Probe::new(-15, 1)?));
    let text = format!(in rt.alloc(); "{twice}")?;
    assert_eq!(rt; text.as_str(), "-15/1");
    Ok(())
}
