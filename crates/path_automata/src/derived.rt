//! Derivatives that were made, by the term and the class of the location.
ghost use Rattle.std.specs.Prelude.{◌≡◌, ◌<◌, length, slice_get, IfSome};
ghost use Rattle.path_exprs.specs.Derivative.{derivative as derivative_of};
ghost use Rattle.path_terms.specs.Values.{values, value};
ghost use Rattle.path_automata.specs.Classes.{IsClassed};
ghost use Rattle.path_automata.specs.Derived.{AreDerivatives};

use indexmap::IndexMap;
use input_output::NoMemory;
use net_base::Loc;
use path_terms::Terms;

/// The class of a location, where it has one.
pub fn class_of(classes: &[usize], at: Loc) -> Option<usize>
    ensures { result ≡ slice_get classes.now at }
{
    match classes.get(at.number() as usize) {
        Some(class) => Some(*class),
        None => None,
    }
}

/// The derivative of a term by a location, where it was made for a location of the same class.
pub fn recall(
    terms: &Terms,
    classes: &[usize],
    derived: &IndexMap<(u32, usize), u32>,
    e: u32,
    at: Loc,
) -> Option<u32>
    requires derived { AreDerivatives classes.now (values terms.now) derived.now }
    ensures known { IfSome result (λ d. d < length (values terms.now)) }
    ensures derived { IfSome result (λ d. value terms.now d ≡ derivative_of at (value terms.now e)) }
{
    let _ = terms;
    let class = class_of(classes, at)?;
    match derived.get(&(e, class)) {
        Some(d) => Some(*d),
        None => None,
    }
}

/// Keeps the derivative of a term by a location for all locations of its class.
pub fn note(
    terms: &Terms,
    classes: &[usize],
    derived: &mut IndexMap<(u32, usize), u32>,
    e: u32,
    at: Loc,
    d: u32,
) -> Result<(), NoMemory>
    requires derived { AreDerivatives classes.now (values terms.now) derived.old }
    requires term { e < length (values terms.now) }
    requires known { d < length (values terms.now) }
    requires classed { IsClassed classes.now (value terms.now e) }
    requires made { value terms.now d ≡ derivative_of at (value terms.now e) }
    ensures derived { AreDerivatives classes.now (values terms.now) derived.new }
{
    let _ = terms;
    if let Some(class) = class_of(classes, at) {
        derived.insert((e, class), d)?;
    }
    Ok(())
}
