//! Laws of the commands, each the contract of a function without a body.
ghost use Rattle.std.specs.Prelude.{◌≡◌, ℕ, List, [], ◌∷◌};
ghost use Rattle.propane_run.specs.Pairs.{ArePair};
ghost use Rattle.run_base.specs.Reading.{Holds, SaidOfTold};
ghost use Rattle.propane_run.specs.Run.{Job};
ghost use Rattle.run_base.specs.Said.{Said, text};
ghost use Rattle.propane_run.specs.Words.{names_read};
ghost use Rattle.propane_run.specs.declared.command.Command.{Command};

/// A command says one thing of the same bytes.
pub fn commands_say_one_thing()
    ensures { (c : Command) (bs : List (List ℕ)) (one other : Said) → Job c bs one → Job c bs other → one ≡ other }
{}

/// So where all that a command reads is told, there is one thing to say: two runs of it, which no fault stops and for
/// which memory suffices, write the same.
pub fn told_texts_come_to_one_thing()
    ensures { (holds : Holds) (words : List (List ℕ)) (c : Command) (one other : Said)
        → SaidOfTold holds (names_read words c) (Job c) one → SaidOfTold holds (names_read words c) (Job c) other → one ≡ other }
{}

/// What `evidence` writes passes with what `compile` writes of the same texts.
pub fn written_pairs_pass()
    ensures { (topology policy config_written evidence_written : List ℕ)
        → Job Command.Compile (topology ∷ policy ∷ []) (text config_written)
        → Job Command.Evidence (topology ∷ policy ∷ []) (text evidence_written)
        → ArePair topology policy config_written evidence_written }
{}
