//! A deed before it is done.
ghost use Rattle.std.specs.Prelude.{◌≡◌};
ghost use Rattle.ll_history.specs.declared.deed.Deed.TheVariants.{Publish, Ask};

use crate::deed::{Deed, Logged};
use crate::law::{Add, Law, Nothing};
use crate::names::Named;
use crate::past::Past;
use ll_directive::Want;
use ll_item::Item;
use logbook::Offer;
use std::marker::Model;

/// A deed that is to be added to a history. It is drafted before the call that does it, which takes its item or its request.
#[derive(Drop)]
pub struct Draft {
    pub(crate) offer: Offer<Logged, u64, Law, Nothing>,
}

impl Model for Draft {
    ghost use Rattle.std.specs.Prelude.{◌≡◌, [], None};
    ghost use Rattle.ll_history.specs.declared.deed.Deed.{Deed};

    ghost Value = { Deed };

    ghost view = { λ d. d.offer.ask.deed };

    ghost invariant = { λ d. (d.offer.names ≡ []) × (d.offer.state ≡ None) };
}

impl<L: Named> Past<L> {
    /// Drafts the publishing of `item`.
    pub fn draft_item(&self, item: &Item) -> Draft
        ensures { result ≡ Publish item.now }
    {
        Draft {
            offer: self.seen.plain::<Nothing, Item, Add>(item),
        }
    }

    /// Drafts the request `want`.
    pub fn draft_request(&self, want: &Want) -> Draft
        ensures { result ≡ Ask want.now }
    {
        Draft {
            offer: self.seen.plain::<Nothing, Want, Add>(want),
        }
    }

    /// Drafts `deed`.
    pub fn draft(&self, deed: Deed) -> Draft
        ensures { result ≡ deed }
    {
        let offer = self.seen.plain::<Nothing, Deed, Add>(&deed);
        drop(deed);
        Draft { offer }
    }
}
