//! The search for the classes of two nodes.
ghost use Rattle.std.specs.Prelude.{◌≡◌, ◌+◌, ◌<◌, ◌≤◌, ◌++◌, [], ◌∷◌, ℕ, All, IfNone, IfOk, IfSome, MatchBool, OnOk, length};
ghost use Rattle.node_classes.specs.Classes.{AreApart, AreClasses, class_in};
ghost use Rattle.node_classes.specs.Forest.{IsForest};
ghost use Rattle.node_classes.specs.Stages.{AreWithin, Stage, targets, work};
ghost use Rattle.node_classes.specs.Ways.{AreRunStarts, Ascend};

use crate::forest::{join, root_of, roots, seeds};
use crate::runs::{run_of, run_starts};
use crate::way::{Way, place_apart};
use std::alloc::{AllocError, Global};

// Lets the pairs of targets wait, of ways to the same places.
fn add_targets(todo: &mut Vec<(u32, u32)>, one: &[Way], other: &[Way]) -> Result<(), AllocError>
    requires { length one.now ≡ length other.now }
    ensures { OnOk result (todo.new.items ≡ todo.old.items ++ targets one.now other.now) }
{
    for i in 0..one.len() {
        todo.push((one[i].to, other[i].to))?;
    }
    Ok(())
}

// Joins two nodes and lets the targets of their ways wait; or gives false where they don't step alike.
fn meet(
    up: &mut Vec<u32>,
    todo: &mut Vec<(u32, u32)>,
    ways: &[Way],
    starts: &[usize],
    x: u32,
    y: u32,
) -> Result<bool, AllocError>
    requires order { Ascend ways.now }
    requires starts { AreRunStarts ways.now starts.now }
    requires each { length starts.now ≡ length up.old.items + 1 }
    requires forest { IsForest up.old.items }
    requires ends { All (λ w. w.to < length up.old.items) ways.now }
    requires waiting { AreWithin (length up.old.items) todo.old.items }
    requires x { x < length up.old.items }
    requires y { y < length up.old.items }
    ensures stage { (a b : ℕ) → Stage ways.now a b up.old.items (todo.old.items ++ (x, y) ∷ [])
        → IfOk result (λ met. MatchBool met (Stage ways.now a b up.new.items todo.new.items) (AreApart ways.now a b)) }
    ensures waiting { OnOk result (AreWithin (length up.new.items) todo.new.items) }
    ensures forest { IsForest up.new.items }
    ensures len { length up.new.items ≡ length up.old.items }
    ensures less { OnOk result (work (length ways.now) up.new.items todo.new.items
        < work (length ways.now) up.old.items (todo.old.items ++ (x, y) ∷ [])) }
{
    let one = root_of(up, x);
    let other = root_of(up, y);
    if one == other {
        return Ok(true);
    }
    let ways_x = run_of(ways, starts, x);
    let ways_y = run_of(ways, starts, y);
    if place_apart(ways_x, ways_y).is_some() {
        return Ok(false);
    }
    join(up, one.min(other), one.max(other));
    add_targets(todo, ways_x, ways_y)?;
    Ok(true)
}

/// The classes of nodes, where two nodes are of one class if one list of places leads from `a` to the one and
/// from `b` to the other; or None where some list of places can be followed from only one of `a` and `b`. A class bears
/// the number of its least node.
pub fn classes(
    alloc: Global,
    count: u32,
    ways: &[Way],
    a: u32,
    b: u32,
) -> Result<Option<Vec<u32>>, AllocError>
    requires order { Ascend ways.now }
    requires ends { All (λ w. w.to < count) ways.now }
    requires a { a < count }
    requires b { b < count }
    ensures alike { IfOk result (λ o. IfSome o (λ classes. AreClasses ways.now a b classes.items)) }
    ensures least { IfOk result (λ o. IfSome o (λ classes. (x : ℕ) → class_in classes.items x ≤ x)) }
    ensures count { IfOk result (λ o. IfSome o (λ classes. length classes.items ≡ count)) }
    ensures apart { IfOk result (λ o. IfNone o (AreApart ways.now a b)) }
{
    let starts = run_starts(alloc, count, ways)?;
    let mut up = seeds(alloc, count)?;
    let mut todo = Vec::new(alloc);
    todo.push((a, b))?;
    'search: while let Some((x, y)) = todo.pop() {
        if !meet(&mut up, &mut todo, ways, &starts, x, y)? {
            return Ok(None);
        }
    }
    let found = roots(alloc, &mut up, count)?;
    Ok(Some(found))
}
