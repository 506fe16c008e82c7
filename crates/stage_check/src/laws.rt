//! What follows from the verdict on two configurations.
ghost use Rattle.stage_check.specs.Laws.{CellsServe, FreePairsStayOrGoOver, StagesAreRollouts};

/// Where nothing is in the way, the stages make a rollout, for every network, every two policies and every prefix. Of each two classes that share
/// prefixes both have the same lines about these, or the tags are apart and the new preferences above.
pub fn stages_are_rollouts()
    ensures cells { CellsServe }
    ensures rollouts { StagesAreRollouts }
    ensures pairs { FreePairsStayOrGoOver }
{}
