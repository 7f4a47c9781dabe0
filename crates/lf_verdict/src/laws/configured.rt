//! The laws about verdicts for the hierarchy that a text says. Each follows from that for a shape.

ghost use Rattle.lf_verdict.specs.ConfiguredLaws.{VerdictsForAreOne, MixturesAreAlikeFor};

use crate::laws::{mixtures_are_alike, verdicts_are_one};

/// A configuration and bytes have one verdict.
pub fn verdicts_for_are_one()
    ensures { VerdictsForAreOne }
{
    verdicts_are_one();
}

/// How the logs are mixed in the bytes does not matter, whatever the configuration says.
pub fn mixtures_are_alike_for()
    ensures { MixturesAreAlikeFor }
{
    mixtures_are_alike();
}
