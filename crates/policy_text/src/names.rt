//! Sets of locations, by their names.
ghost use Rattle.std.specs.Prelude.{◌≡◌, ◌++◌, ◌+◌, ◌<◌, ◌^◌, length, OnOk, IfOk, IsTrue};
ghost use Rattle.std.specs.List.{AllByRecursion, flat_map};
ghost use Rattle.net_base.specs.NameRule.{is_name};
ghost use Rattle.net_base.specs.declared.net.Site.{Site as SiteValue};
ghost use Rattle.policy_text.specs.PolicyText.{
  names_from,
  names_in as names_of_set,
  next_name,
  joined_names,
  are_all as are_all_names,
  set_text,
  braced_names,
  place_text,
  next_place as place_after,
  joined_places,
};
ghost use Rattle.policy_text.specs.Values.{IsLocSet};

use input_output::NoMemory;
use net_base::{Loc, LocSet, Name, Net, Site};
use std::alloc::Global;
use text_parts::{push_bytes, push_name};

/// Each name keeps the rule of names, as its type says. It changes nothing: only what it says is asked for.
pub(crate) fn have_names(sites: &[Site])
    ensures { AllByRecursion (λ (s : SiteValue). IsTrue (is_name s.name)) sites.now }
{
    for site in sites {
        site.name.as_bytes();
    }
}

// A set has twelve words of 64 bits, as its type says. It does nothing: only what it says is asked for.
fn is_set(set: &LocSet)
    ensures { IsLocSet set.now }
{
    are_words(&set.words);
}

// Each word has 64 bits, as its type says. It does nothing: only what it says is asked for.
fn are_words(words: &[u64])
    ensures { AllByRecursion (λ w. w < 2 ^ 64) words.now }
{}

// Adds the names of those sites that are in the set; the first of them is the location `first`.
fn add_names(
    names: &mut Vec<Name>,
    set: &LocSet,
    first: u16,
    sites: &[Site],
) -> Result<(), NoMemory>
    requires { first + length sites.now < 65536 }
    ensures { OnOk result (names.new.items ≡ names.old.items ++ names_from set.now first sites.now) }
{
    let mut at = first;
    for site in sites {
        if set.holds(Loc::new(at)) {
            names.push(site.name)?;
        }
        at += 1;
    }
    Ok(())
}

// The names of a set, in order of location.
fn names_in(alloc: Global, net: &Net, set: &LocSet) -> Result<Vec<Name>, NoMemory>
    ensures names { IfOk result (λ v. v.items ≡ names_of_set net.now set.now) }
    ensures rules { IsLocSet set.now }
{
    is_set(set);
    let mut names = Vec::new(alloc);
    add_names(&mut names, set, 0, net.routers())?;
    add_names(&mut names, set, net.routers().len() as u16, net.peers())?;
    Ok(names)
}

// Whether the names are those of all locations.
fn are_all(net: &Net, names: &[Name]) -> bool
    ensures { result ≡ are_all_names net.now names.now }
{
    names.len() == net.routers().len() + net.peers().len()
}

// Adds names, each after a comma and a space.
fn push_more_names(text: &mut Vec<u8>, names: &[Name]) -> Result<(), NoMemory>
    ensures { OnOk result (text.new.items ≡ text.old.items ++ flat_map next_name names.now) }
{
    for name in names {
        push_bytes(text, b", ")?;
        push_name(text, name)?;
    }
    Ok(())
}

// Adds the names, joined by a comma and a space.
#[tactic(auto, unfolding(crate::specs::PolicyText::joined_names))]
fn push_joined(text: &mut Vec<u8>, names: &[Name]) -> Result<(), NoMemory>
    ensures { OnOk result (text.new.items ≡ text.old.items ++ joined_names names.now) }
{
    match names {
        [] => Ok(()),
        [first, rest @ ..] => {
            push_name(text, first)?;
            push_more_names(text, rest)
        }
    }
}

// Adds the names, several of them in braces.
#[tactic(auto, unfolding(crate::specs::PolicyText::braced_names))]
fn push_braced(text: &mut Vec<u8>, names: &[Name]) -> Result<(), NoMemory>
    ensures { OnOk result (text.new.items ≡ text.old.items ++ braced_names names.now) }
{
    if let [name] = names {
        return push_name(text, name);
    }
    push_bytes(text, b"{ ")?;
    push_joined(text, names)?;
    push_bytes(text, b" }")
}

/// Adds the names of a set, joined by a comma and a space.
pub(crate) fn push_names(
    alloc: Global,
    text: &mut Vec<u8>,
    net: &Net,
    set: &LocSet,
) -> Result<(), NoMemory>
    ensures text { OnOk result (text.new.items ≡ text.old.items ++ joined_names (names_of_set net.now set.now)) }
    ensures rules { IsLocSet set.now }
{
    let names = names_in(alloc, net, set)?;
    push_joined(text, &names)
}

/// Adds the set of a call: `any` for all locations, and otherwise its names.
#[tactic(auto, unfolding(crate::specs::PolicyText::set_text))]
pub(crate) fn push_set(
    alloc: Global,
    text: &mut Vec<u8>,
    net: &Net,
    set: &LocSet,
) -> Result<(), NoMemory>
    ensures text { OnOk result (text.new.items ≡ text.old.items ++ set_text net.now (names_of_set net.now set.now)) }
    ensures rules { IsLocSet set.now }
{
    let names = names_in(alloc, net, set)?;
    if are_all(net, &names) {
        return push_bytes(text, b"any");
    }
    push_joined(text, &names)
}

// Adds a place of a `link` or of a `path`: `any` for all locations, and otherwise its names.
#[tactic(auto, unfolding(crate::specs::PolicyText::place_text))]
fn push_place(alloc: Global, text: &mut Vec<u8>, net: &Net, set: &LocSet) -> Result<(), NoMemory>
    ensures text { OnOk result (text.new.items ≡ text.old.items ++ place_text net.now (names_of_set net.now set.now)) }
    ensures rules { IsLocSet set.now }
{
    let names = names_in(alloc, net, set)?;
    if are_all(net, &names) {
        return push_bytes(text, b"any");
    }
    push_braced(text, &names)
}

// Adds places, each after a comma and a space.
fn push_more_places(
    alloc: Global,
    text: &mut Vec<u8>,
    net: &Net,
    sets: &[LocSet],
) -> Result<(), NoMemory>
    ensures text { OnOk result (text.new.items ≡ text.old.items ++ flat_map (place_after net.now) sets.now) }
    ensures rules { OnOk result (AllByRecursion IsLocSet sets.now) }
{
    for set in sets {
        push_bytes(text, b", ")?;
        push_place(alloc, text, net, set)?;
    }
    Ok(())
}

/// Adds the places of a `link` or of a `path`, joined by a comma and a space.
#[tactic(auto, unfolding(crate::specs::PolicyText::joined_places))]
pub(crate) fn push_places(
    alloc: Global,
    text: &mut Vec<u8>,
    net: &Net,
    sets: &[LocSet],
) -> Result<(), NoMemory>
    ensures text { OnOk result (text.new.items ≡ text.old.items ++ joined_places net.now sets.now) }
    ensures rules { OnOk result (AllByRecursion IsLocSet sets.now) }
{
    match sets {
        [] => Ok(()),
        [first, rest @ ..] => {
            push_place(alloc, text, net, first)?;
            push_more_places(alloc, text, net, rest)
        }
    }
}
