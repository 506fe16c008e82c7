//! Rows of least numbers.
ghost use Rattle.std.specs.Prelude.{◌≡◌, ◌↔◌, ◌||◌, ◌&&◌, ◌==◌, ◌<◌, ℕ, IsSome, None, Some, true, false, nat_le, OnOk, IsTrue, slice_index_or, vec_len};
ghost use Rattle.std.specs.List.{list_any};
ghost use Rattle.preference_check.specs.Rows.{has_upto, is_upto};

use crate::offers::Offer;
use std::alloc::{AllocError, Global};

/// The least number that was put in at each place, where there is one, and the places that have one.
#[derive(Drop)]
pub struct LowRow {
    least: Vec<Option<u32>>,
    places: Vec<usize>,
    ghost listed: { (p : ℕ) → IsSome (slice_index_or least.items p None) → IsTrue (list_any (λ x. x == p) places.items) },
}

// Whether the first number is there and no greater than the second wherever that one is there.
fn is_as_low(one: Option<u32>, other: Option<u32>) -> bool
    ensures { IsTrue result ↔ ((n : ℕ) → IsTrue (is_upto other n) → IsTrue (is_upto one n)) }
{
    match (one, other) {
        (_, None) => true,
        (None, Some(_)) => false,
        (Some(low), Some(bound)) => low <= bound,
    }
}

// Whether a number is there and is this one.
fn is_just(low: Option<u32>, number: u32) -> bool
    ensures { IsTrue result → low ≡ Some number }
{
    match low {
        Some(low) => low == number,
        None => false,
    }
}

// Makes a row so long that it has a place.
fn make_room(least: &mut Vec<Option<u32>>, place: usize) -> Result<(), AllocError>
    ensures same { (p : ℕ) → slice_index_or least.new.items p None ≡ slice_index_or least.old.items p None }
    ensures room { OnOk result (place < vec_len least.new) }
{
    if place < least.len() {
        return Ok(());
    }
    let room = place.checked_add(1).ok_or(AllocError)?;
    least.resize(room, None)
}

// Takes the numbers at some places out.
fn take_out(least: &mut Vec<Option<u32>>, places: &[usize])
    ensures out { (p : ℕ) → list_any (λ x. x == p) places.now ≡ true → slice_index_or least.new.items p None ≡ None }
    ensures kept { (p : ℕ) → list_any (λ x. x == p) places.now ≡ false → slice_index_or least.new.items p None ≡ slice_index_or least.old.items p None }
{
    for place in places {
        if *place < least.len() {
            least[*place] = None;
        }
    }
}

impl LowRow {
    ghost use Rattle.preference_check.specs.Offers.{is_offered};
    ghost use Rattle.preference_check.specs.Rows.{IsLevel};

    /// A row without numbers.
    pub fn new(alloc: Global) -> LowRow
        ensures { (p n : ℕ) → has_upto result.least.items p n ≡ false }
    {
        LowRow {
            least: Vec::new(alloc),
            places: Vec::new(alloc),
        }
    }

    /// The least number at a place.
    pub fn at(&self, place: usize) -> Option<u32>
        ensures { result ≡ slice_index_or self.now.least.items place None }
    {
        if place < self.least.len() {
            self.least[place]
        } else {
            None
        }
    }

    /// Takes all numbers out.
    pub fn clear(&mut self)
        ensures { (p n : ℕ) → has_upto self.new.least.items p n ≡ false }
    {
        take_out(&mut self.least, &self.places);
        self.places.clear();
    }

    /// Puts a number in at a place.
    pub fn lower(&mut self, place: usize, number: u32) -> Result<(), AllocError>
        ensures { OnOk result ((p n : ℕ) → has_upto self.new.least.items p n ≡ (has_upto self.old.least.items p n || (place == p && nat_le number n))) }
    {
        make_room(&mut self.least, place)?;
        match self.least[place] {
            Some(low) => self.least[place] = Some(low.min(number)),
            None => {
                self.places.push(place)?;
                self.least[place] = Some(number);
            }
        }
        Ok(())
    }

    // Whether the place that was put in behind so many others is that of an offer, and has what that costs.
    fn is_level(&self, count: usize, offer: Offer) -> bool
        requires { count < vec_len self.now.places }
        ensures { IsTrue result → IsLevel self.now.least.items (slice_index_or self.now.places.items count 0) offer }
    {
        let place = offer.at.number() as usize;
        self.places[count] == place && is_just(self.at(place), offer.cost)
    }

    /// Whether the row has what these offers cost and no other numbers, in the order in which the places were put in.
    pub fn has_just(&self, offers: &[Offer]) -> bool
        ensures { IsTrue result → (p n : ℕ) → has_upto self.now.least.items p n ≡ is_offered offers.now p n }
    {
        if offers.len() != self.places.len() {
            return false;
        }
        for i in 0..offers.len() {
            if !self.is_level(i, offers[i]) {
                return false;
            }
        }
        true
    }

    /// Puts in what each offer costs at its location. Where the row has just that already, nothing changes.
    pub fn take_in(&mut self, offers: &[Offer]) -> Result<(), AllocError>
        ensures { OnOk result ((p n : ℕ) → has_upto self.new.least.items p n ≡ (has_upto self.old.least.items p n || is_offered offers.now p n)) }
    {
        if self.has_just(offers) {
            return Ok(());
        }
        for offer in offers {
            self.lower(offer.at.number() as usize, offer.cost)?;
        }
        Ok(())
    }

    /// Whether the row has numbers that are as low wherever another one has numbers.
    pub fn is_as_low(&self, other: &LowRow) -> bool
        ensures { IsTrue result ↔ ((p n : ℕ) → IsTrue (has_upto other.now.least.items p n) → IsTrue (has_upto self.now.least.items p n)) }
    {
        for place in &other.places {
            if !is_as_low(self.at(*place), other.at(*place)) {
                return false;
            }
        }
        true
    }

    /// Whether the row has numbers that are as low as each offer.
    pub fn meets(&self, offers: &[Offer]) -> bool
        ensures { IsTrue result ↔ ((p n : ℕ) → IsTrue (is_offered offers.now p n) → IsTrue (has_upto self.now.least.items p n)) }
    {
        for offer in offers {
            if !is_as_low(self.at(offer.at.number() as usize), Some(offer.cost)) {
                return false;
            }
        }
        true
    }
}
