//! What is made is a stage.
ghost use Rattle.stage_maker.specs.Laws.{CellsTurn, StagesAreLawful, StagesAreMade};

/// What is made of two configurations of the same routers, and of cells that pair their classes, is a configuration and a stage
/// between them, with the starts of the first.
pub fn stages_are_made()
    ensures lawful { StagesAreLawful }
    ensures stage { StagesAreMade }
{}

/// The two configurations may change places, where the sides of the cells do.
pub fn cells_turn()
    ensures { CellsTurn }
{}
