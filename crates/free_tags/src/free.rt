//! Free tags, found one after the other.
ghost use Rattle.std.specs.Prelude.{◌≡◌, ◌||◌, ◌<◌, ◌≤◌, ◌+◌, ◌++◌, ◌∷◌, [], length, List as Items, IfOk, IfSome, OnOk};
ghost use Rattle.std.specs.List.{list_any};
ghost use Rattle.config_base.specs.Lines.{same_tag};
ghost use Rattle.free_tags.specs.Free.{free_count, AreNewTags, HaveSameTags, IsFree, IsNewTag};
ghost use Rattle.free_tags.specs.Reached.{LeavesFree};
ghost use Rattle.net_base.specs.declared.numbers.Tag.{Tag as PlainTag};

use config_base::NO_TAG;
use indexmap::{IndexMap, IndexSet};
use input_output::NoMemory;
use net_base::{List, Tag};
use std::alloc::Global;

/// How far the values with an AS number have been counted: so many up to this one are free.
#[derive(Clone, Copy, Debug, PartialEq, Eq)]
pub struct Reached {
    /// How many of the values from 1 up to `value` are free.
    pub count: u32,
    /// The value up to which they have been counted, or 0 before the first.
    pub value: u32,
}

/// The tags that some others leave free.
#[derive(Drop)]
pub struct FreeTags {
    taken: IndexSet<Tag>,
    reached: IndexMap<u32, Reached>,
}

// Puts a tag to the others.
fn note(taken: &mut IndexSet<Tag>, tag: Tag) -> Result<(), NoMemory>
    ensures { OnOk result ((t : PlainTag) → list_any (same_tag t) taken.new.keys ≡ (list_any (same_tag t) taken.old.keys || same_tag t tag)) }
{
    taken.insert(tag)?;
    Ok(())
}

// The set of some tags.
fn set_of(alloc: Global, tags: &[Tag]) -> Result<IndexSet<Tag>, NoMemory>
    ensures { IfOk result (λ set. HaveSameTags set.keys tags.now) }
{
    let mut set = IndexSet::new(alloc);
    for tag in tags {
        note(&mut set, *tag)?;
    }
    Ok(set)
}

// Whether a tag is taken.
fn is_taken(taken: &IndexSet<Tag>, tag: Tag) -> bool
    ensures { result ≡ list_any (same_tag tag) taken.now.keys }
{
    taken.contains(&tag)
}

// The k-th free value with an AS number, counted on from a value up to which fewer are free.
fn value_from(taken: &IndexSet<Tag>, asn: u32, from: Reached, k: u32) -> Option<u32>
    requires { from.count < k }
    ensures { (tags : Items PlainTag) → HaveSameTags taken.now.keys tags → free_count tags asn from.value ≡ from.count → IfSome result (IsFree tags asn k) }
{
    let mut count = from.count;
    for value in from.value..u32::MAX {
        let next = value + 1;
        if !is_taken(taken, Tag { asn, value: next }) {
            count += 1;
            if count == k {
                return Some(next);
            }
        }
    }
    None
}

impl FreeTags {
    /// What these tags leave free.
    pub fn new(alloc: Global, taken: &[Tag]) -> Result<FreeTags, NoMemory>
        ensures { IfOk result (LeavesFree taken.now) }
    {
        Ok(FreeTags {
            taken: set_of(alloc, taken)?,
            reached: IndexMap::new(alloc),
        })
    }

    // From where the values with an AS number are counted on to the k-th.
    fn start_for(&self, asn: u32, k: u32) -> Reached
        requires { 1 ≤ k }
        ensures fewer { result.count < k }
        ensures right { (tags : Items PlainTag) → LeavesFree tags self.now → free_count tags asn result.value ≡ result.count }
    {
        if let Some(reached) = self.reached.get(&asn) {
            if reached.count < k {
                return *reached;
            }
        }
        Reached { count: 0, value: 0 }
    }

    // Keeps how far the values with an AS number have been counted.
    fn keep(&mut self, asn: u32, reached: Reached) -> Result<(), NoMemory>
        ensures { (tags : Items PlainTag) → LeavesFree tags self.old → free_count tags asn reached.value ≡ reached.count → OnOk result (LeavesFree tags self.new) }
    {
        self.reached.insert(asn, reached)?;
        Ok(())
    }

    // The k-th free value with an AS number.
    fn value_for(&mut self, asn: u32, k: u32) -> Result<u32, NoMemory>
        requires { 1 ≤ k }
        ensures free { (tags : Items PlainTag) → LeavesFree tags self.old → IfOk result (IsFree tags asn k) }
        ensures kept { (tags : Items PlainTag) → LeavesFree tags self.old → OnOk result (LeavesFree tags self.new) }
    {
        let start = self.start_for(asn, k);
        match value_from(&self.taken, asn, start, k) {
            Some(value) => {
                self.keep(asn, Reached { count: k, value })?;
                Ok(value)
            }
            None => Err(NoMemory),
        }
    }

    /// The tag for one whose value is k: the k-th that is free with the same AS number. No tag stays no tag.
    pub fn renewed(&mut self, tag: Tag) -> Result<Tag, NoMemory>
        ensures new { (tags : Items PlainTag) → LeavesFree tags self.old → IfOk result (IsNewTag tags tag) }
        ensures kept { (tags : Items PlainTag) → LeavesFree tags self.old → OnOk result (LeavesFree tags self.new) }
    {
        if tag.value == 0 {
            return Ok(NO_TAG);
        }
        Ok(Tag {
            asn: tag.asn,
            value: self.value_for(tag.asn, tag.value)?,
        })
    }

    // Puts the tag for one behind others.
    fn push_renewed(&mut self, all: &mut List<Tag>, tag: &Tag) -> Result<(), NoMemory>
        ensures new { (taken done : Items PlainTag) → LeavesFree taken self.old → AreNewTags taken done all.old → OnOk result (AreNewTags taken (done ++ tag.now ∷ []) all.new) }
        ensures kept { (taken : Items PlainTag) → LeavesFree taken self.old → OnOk result (LeavesFree taken self.new) }
        ensures long { OnOk result (length all.new ≡ length all.old + 1) }
    {
        all.push(self.renewed(*tag)?)?;
        Ok(())
    }

    /// The tags for some, in order.
    pub fn all_renewed(&mut self, alloc: Global, tags: &[Tag]) -> Result<List<Tag>, NoMemory>
        ensures new { (taken : Items PlainTag) → LeavesFree taken self.old → IfOk result (AreNewTags taken tags.now) }
        ensures kept { (taken : Items PlainTag) → LeavesFree taken self.old → OnOk result (LeavesFree taken self.new) }
        ensures long { IfOk result (λ all. length all ≡ length tags.now) }
    {
        let mut all = List::new(alloc);
        for place in 0..tags.len() {
            self.push_renewed(&mut all, &tags[place])?;
        }
        Ok(all)
    }
}
