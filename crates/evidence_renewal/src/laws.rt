//! What is so of a configuration that is renewed, each the contract of a function without a body.
ghost use Rattle.evidence_renewal.specs.Laws.{RenewedConfigurationsAreAbove, RenewedConfigurationsAreApart, RenewedConfigurationsAreOne, RenewedEvidencePasses};

/// The evidence of a configuration that is renewed passes: so it is right.
pub fn renewed_evidence_passes()
    ensures { RenewedEvidencePasses }
{}

/// No tag stands in it and in the old one.
pub fn renewed_configurations_are_apart()
    ensures { RenewedConfigurationsAreApart }
{}

/// Each of its preferences is above each of the old one.
pub fn renewed_configurations_are_above()
    ensures { RenewedConfigurationsAreAbove }
{}

/// There is one for a policy and an old configuration.
pub fn renewed_configurations_are_one()
    ensures { RenewedConfigurationsAreOne }
{}
