//! What case lists keep, and that one configuration is made of them, and can be.
ghost use Rattle.config_maker.specs.Law.{CaseListsAreClasses, ConfigurationsCanBeMade, MadeConfigurationsAreOne};

/// Each case of a policy has a pattern, and there are fewer cases than a class has numbers.
pub fn case_lists_are_classes()
    ensures { CaseListsAreClasses }
{}

/// There is one configuration of cases with their graphs, numbers and tags.
pub fn made_configurations_are_one()
    ensures { MadeConfigurationsAreOne }
{}

/// And there is one, whether it is made or not.
pub fn configurations_can_be_made()
    ensures { ConfigurationsCanBeMade }
{}
