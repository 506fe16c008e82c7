//! What becomes of the items of a text, one after another.
ghost use Rattle.std.specs.Prelude.{◌≡◌, ◌++◌, ◌∷◌, [], ℕ, OnOk, IfOk, IfErr, Ok};
ghost use Rattle.net_base.specs.Network.{PlainNet};
ghost use Rattle.net_base.specs.Gives.{GivesUnless};
ghost use Rattle.policy_tokens.specs.declared.fault.PolicyFault.TheVariants.{NoMemory};
ghost use Rattle.policy_grammar.specs.Raw.{Item as PlainItem};
ghost use Rattle.policy_rules.specs.KnownView.{plain_names};
ghost use Rattle.policy_base.specs.Policies.{policy_of};
ghost use Rattle.policy_parser.specs.ItemValues.{IsItem};
ghost use Rattle.policy_parser.specs.SoFar.{plain_kept, kept_item, IsSoFar};
ghost use Rattle.policy_parser.specs.Spelled.{items_spelled, spelled};

use crate::told::Told;
use crate::values::{ItemRead, OriginRead};
use net_base::{List, Net};
use policy_base::{Origin, Policy, Statement};
use policy_rules::Known;
use policy_tokens::PolicyFault;
use std::alloc::Global;

/// The policy so far.
#[derive(Drop)]
pub(crate) struct Kept {
    origins: Vec<Origin>,
    statements: Vec<Statement>,
}

/// What is known of a text whose items were read up to a place: what is told of them, and the policy so far as long as
/// no rule is broken and no limit is passed.
#[derive(Drop)]
pub(crate) struct Verdicts<'a> {
    told: Told<'a>,
    kept: Kept,
}

impl Kept {
    // No item is kept.
    fn new(alloc: Global) -> Kept
        ensures { plain_kept result ≡ record { origins = []; statements = [] } }
    {
        Kept {
            origins: Vec::new(alloc),
            statements: Vec::new(alloc),
        }
    }

    // An origin more, if its prefix and its set were read.
    fn origin(&mut self, origin: &OriginRead) -> Result<(), PolicyFault>
        ensures { GivesUnless NoMemory (λ _. plain_kept self.new) result (Ok (kept_item (plain_kept self.old) (ItemRead.Origin origin.now))) }
    {
        let (Ok(prefix), Ok(at)) = (origin.prefix, origin.at) else {
            return Ok(());
        };
        self.origins.push(Origin { prefix, at })?;
        Ok(())
    }

    // An item more.
    fn take(&mut self, item: ItemRead) -> Result<(), PolicyFault>
        ensures { GivesUnless NoMemory (λ _. plain_kept self.new) result (Ok (kept_item (plain_kept self.old) item)) }
    {
        match item {
            ItemRead::Group(_) => {}
            ItemRead::Origin(origin) => self.origin(&origin)?,
            ItemRead::State(statement) => self.statements.push(statement.value)?,
        }
        Ok(())
    }

    // Nothing is kept any more.
    fn forget(&mut self) {
        self.origins.clear();
        self.statements.clear();
    }
}

impl<'a> Verdicts<'a> {
    /// Nothing is read yet.
    pub fn of(alloc: Global, net: &'a Net) -> Result<Verdicts<'a>, PolicyFault>
        ensures so_far { (bytes : List ℕ) → IfOk result (λ verdicts. IsSoFar bytes net.now [] verdicts) }
        ensures err { IfErr result (λ e. e ≡ PolicyFault.NoMemory) }
    {
        let told = Told::of(alloc, net)?;
        Ok(Verdicts {
            told,
            kept: Kept::new(alloc),
        })
    }

    /// The names above what is read next.
    pub fn known(&self) -> &Known<'a>
        ensures { result.now ≡ self.now.told.known }
    {
        self.told.known()
    }

    /// An item more.
    pub fn take(&mut self, text: &'a [u8], item: ItemRead) -> Result<(), PolicyFault>
        ensures so_far { (net : PlainNet) (items : List PlainItem) (x : PlainItem) → IsSoFar text.now net items self.old
            → IsItem text.now net (plain_names self.old.told.known) x item → OnOk result (IsSoFar text.now net (items ++ x ∷ []) self.new) }
        ensures err { IfErr result (λ e. e ≡ PolicyFault.NoMemory) }
    {
        self.told.take(text, &item)?;
        if self.told.first_fault().is_err() {
            self.kept.forget();
            return Ok(());
        }
        self.kept.take(item)
    }

    /// The policy, or the first rule that is broken or limit that is passed.
    pub fn policy(self) -> Result<Policy, PolicyFault>
        requires { (bytes : List ℕ) × (net : PlainNet) × (items : List PlainItem) × IsSoFar bytes net items self }
        ensures { (bytes : List ℕ) (net : PlainNet) (items : List PlainItem) → items_spelled bytes ≡ Ok items → IsSoFar bytes net items self.entry
            → GivesUnless NoMemory policy_of result (spelled net bytes) }
    {
        self.told.first_fault()?;
        Ok(Policy::new(
            List::from_vec(self.kept.origins),
            List::from_vec(self.kept.statements),
        ))
    }
}
