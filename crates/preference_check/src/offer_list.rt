//! Lists of offers, most of which are short.
ghost use Rattle.std.specs.Prelude.{◌≡◌, [], ◌∷◌, ◌++◌, IfOk, OnErr, OnOk, replicate};

use crate::offers::Offer;
use smallvec::SmallVec;
use std::alloc::{AllocError, Global};
use std::marker::Model;

// As many offers as lie in the list itself.
const SHORT: usize = 4;

/// What a node offers, in the order in which it was put. A short list takes no memory but its own.
#[derive(Drop)]
pub struct OfferList {
    offers: SmallVec<Offer, SHORT>,
}

impl Model for OfferList {
    ghost use Rattle.std.specs.Prelude.{List};
    ghost use Rattle.preference_check.specs.declared.offers.Offer.{Offer};

    ghost Value = { List Offer };

    ghost view = { λ l. l.offers.items };
}

impl OfferList {
    /// A list with no offer.
    pub fn new(alloc: Global) -> OfferList
        ensures { result ≡ [] }
    {
        OfferList {
            offers: SmallVec::new(alloc),
        }
    }

    /// Puts an offer behind the others. After an error the list is as before.
    #[inline(always)]
    pub fn push(&mut self, offer: Offer) -> Result<(), AllocError>
        ensures ok { OnOk result (self.new ≡ self.old ++ offer ∷ []) }
        ensures err { OnErr result (self.new ≡ self.old) }
    {
        self.offers.push(offer)?;
        Ok(())
    }

    /// The offers.
    pub fn as_slice(&self) -> &[Offer]
        ensures { result.now ≡ self.now }
    {
        self.offers.as_slice()
    }
}

/// So many lists with no offer.
pub fn no_offers(alloc: Global, size: usize) -> Result<Vec<OfferList>, AllocError>
    ensures { IfOk result (λ lists. lists.items ≡ replicate size []) }
{
    let mut lists = Vec::with_capacity(alloc, size)?;
    for _ in 0..size {
        lists.push(OfferList::new(alloc))?;
    }
    Ok(lists)
}
