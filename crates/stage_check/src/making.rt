//! The stages.
ghost use Rattle.std.specs.Prelude.{◌≡◌, IfOk};
ghost use Rattle.stage_classes.specs.Cells.{cells as cells_between};
ghost use Rattle.stage_maker.specs.Laws.{MayJoin};
ghost use Rattle.stage_check.specs.Stages.{stage_of};

use crate::which::Stage;
use config_base::Config;
use stage_classes::{Cell, turned};
use stage_maker::joined;
use std::alloc::{AllocError, Global};

/// A stage between two configurations, whose classes have these cells, where nothing is in the way.
#[tactic(auto, using(crate::proofs::Free::turned_serve), unfolding(crate::specs::Stages::stage_of))]
pub fn stage_between(
    alloc: Global,
    which: Stage,
    cells: &[Cell],
    old: &Config,
    new: &Config,
) -> Result<Config, AllocError>
    requires cells { cells.now ≡ cells_between old.now.classes new.now.classes }
    requires may { MayJoin cells.now old.now new.now }
    ensures { IfOk result (λ config. config ≡ stage_of which old.now new.now) }
{
    match which {
        Stage::One => joined(alloc, cells, old, new),
        Stage::Two => {
            let turned = turned(alloc, cells)?;
            joined(alloc, turned.as_slice(), new, old)
        }
    }
}
