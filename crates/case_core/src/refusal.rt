//! Why a policy is not compiled.
ghost use Rattle.std.specs.Prelude.{◌≡◌};
ghost use Rattle.case_core.specs.declared.refusal.CompileRefusal.TheVariants.{NoMemory as no_memory};

use graph_base::{Graph, Refutation};
use input_output::NoMemory;
use net_base::{List, Loc};
use std::alloc::AllocError;
use std::fmt;
use thiserror::Error;

/// Why a policy is not compiled. The first field is the number of the case, from 1. A case is judged in the order of
/// these variants.
#[derive(Drop, Error)]
pub enum CompileRefusal {
    /// The statement has more than 64 alternatives: this many, or 18,446,744,073,709,551,615 where there
    /// are more.
    #[error("case {0}: {1} alternatives")]
    TooManyRanks(u32, u64),
    /// More than 4,096 nodes are reached.
    #[error("case {0}: more than 4096 nodes")]
    TooManyStates(u32),
    /// There are more steps than there is room for.
    #[error("case {0}: too many steps")]
    TooManySteps(u32),
    /// This router is named as a source, and no permitted walk starts there.
    #[error("case {0}: a source without a path")]
    SourceWithoutPath(u32, Loc),
    /// From this source there is a permitted walk, the first one here, and a walk without a rank that
    /// others need, the second one.
    #[error("case {0}: a source with a rank and without one")]
    MixedSource(u32, Loc, List<Loc>, List<Loc>),
    /// No preference numbers meet the rules of evidence on this graph, which is that of the case, nor on any other
    /// one that is faithful to it. The lines show it.
    #[error("case {0}: no evidence")]
    NoEvidence(u32, Graph, Refutation),
    /// Memory was refused.
    #[error("out of memory")]
    NoMemory,
}

impl CompileRefusal {
    ghost use Rattle.case_core.specs.Numbered.{number_of, word_of};

    /// The number of the refusal, from 1 to 6: of several reasons of a case the one with the least number is told.
    /// Want of memory has the number 0.
    pub fn number(&self) -> u8
        ensures { result ≡ number_of self.now }
    {
        match self {
            CompileRefusal::TooManyRanks(_, _) => 1,
            CompileRefusal::TooManyStates(_) => 2,
            CompileRefusal::TooManySteps(_) => 3,
            CompileRefusal::SourceWithoutPath(_, _) => 4,
            CompileRefusal::MixedSource(_, _, _, _) => 5,
            CompileRefusal::NoEvidence(_, _, _) => 6,
            CompileRefusal::NoMemory => 0,
        }
    }

    /// The word of the refusal.
    pub fn word(&self) -> &'static [u8]
        ensures { result.now ≡ word_of self.now }
    {
        match self {
            CompileRefusal::TooManyRanks(_, _) => b"too-many-ranks",
            CompileRefusal::TooManyStates(_) => b"too-many-states",
            CompileRefusal::TooManySteps(_) => b"too-many-steps",
            CompileRefusal::SourceWithoutPath(_, _) => b"source-without-path",
            CompileRefusal::MixedSource(_, _, _, _) => b"mixed-source",
            CompileRefusal::NoEvidence(_, _, _) => b"no-evidence",
            CompileRefusal::NoMemory => b"no-memory",
        }
    }
}

impl fmt::Debug for CompileRefusal {
    fn fmt<W: fmt::Write>(&self, f: &mut fmt::Formatter<W>) -> fmt::Result {
        fmt::Display::fmt(self, f)
    }
}

impl From<NoMemory> for CompileRefusal {
    ghost from_gives = { λ _ e. e ≡ no_memory };

    fn from(_: NoMemory) -> CompileRefusal {
        CompileRefusal::NoMemory
    }
}

impl From<AllocError> for CompileRefusal {
    ghost from_gives = { λ _ e. e ≡ no_memory };

    fn from(_: AllocError) -> CompileRefusal {
        CompileRefusal::NoMemory
    }
}
