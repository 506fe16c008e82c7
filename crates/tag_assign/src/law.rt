//! What the tags keep.
ghost use Rattle.tag_assign.specs.Law.{TagsKeepTheirRule};

/// The tags of the nodes of cases carry their router's AS number, those of one router differ over all cases,
/// and nodes at peers have none.
pub fn tags_keep_their_rule()
    ensures { TagsKeepTheirRule }
{}
