//! Groups and origins, with what they come to.
ghost use Rattle.std.specs.Prelude.{◌≤◌, ◌<◌, length, OnOk};
ghost use Rattle.net_base.specs.Network.{PlainNet};
ghost use Rattle.policy_grammar.specs.Left.{left, StandsIn};
ghost use Rattle.policy_rules.specs.KnownView.{plain_names};
ghost use Rattle.policy_parser.specs.ItemReads.{ReadsGroup, ReadsOrigin};

use crate::values::{GroupRead, OriginRead};
use policy_grammar::{Lexeme, Symbol, first, passed};
use policy_rules::prefix_at;
use policy_tokens::PolicyFault;
use policy_values::Reader;

/// A group, behind `define`.
#[tactic(auto, unfolding(policy_grammar::specs::Items::define_at))]
pub(crate) fn define(reader: &Reader<'_>, at: &mut Lexeme) -> Result<GroupRead, PolicyFault>
    requires stands { StandsIn reader.now.text.now at.old }
    ensures read { (net : PlainNet) → ReadsGroup reader.now.text.now net (plain_names reader.now.known.now) (left reader.now.text.now at.old) (left reader.now.text.now at.new) result }
    ensures stands { StandsIn reader.now.text.now at.new }
    ensures fewer { length (left reader.now.text.now at.new) ≤ length (left reader.now.text.now at.old) }
    ensures onward { OnOk result (length (left reader.now.text.now at.new) < length (left reader.now.text.now at.old)) }
{
    let name = first(Symbol::Name, reader.text, at)?;
    passed(Symbol::Equals, reader.text, at)?;
    let set = reader.braced(at)?;
    passed(Symbol::Semicolon, reader.text, at)?;
    Ok(GroupRead { name, set })
}

/// A prefix with its origins, behind `originate`.
#[tactic(auto, unfolding(policy_grammar::specs::Items::originate_at))]
pub(crate) fn originate(reader: &Reader<'_>, at: &mut Lexeme) -> Result<OriginRead, PolicyFault>
    requires stands { StandsIn reader.now.text.now at.old }
    ensures read { ReadsOrigin reader.now.text.now reader.now.whole.now.net.now (plain_names reader.now.known.now) (left reader.now.text.now at.old) (left reader.now.text.now at.new) result }
    ensures stands { StandsIn reader.now.text.now at.new }
    ensures fewer { length (left reader.now.text.now at.new) ≤ length (left reader.now.text.now at.old) }
    ensures onward { OnOk result (length (left reader.now.text.now at.new) < length (left reader.now.text.now at.old)) }
{
    let figure = first(Symbol::Figure, reader.text, at)?;
    passed(Symbol::At, reader.text, at)?;
    let names = reader.origin_names(at)?;
    passed(Symbol::Semicolon, reader.text, at)?;
    Ok(OriginRead {
        place: figure.place,
        prefix: prefix_at(reader.text, &figure),
        at: names.at,
        routers: names.routers,
    })
}
