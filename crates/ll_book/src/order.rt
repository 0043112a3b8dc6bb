//! A set of places, read in order.
ghost use Rattle.std.specs.Prelude.{◌≡◌, ◌<◌, ◌+◌, ◌^◌, [], false, IfNone, IfSome, OnErr, OnOk, length};
ghost use Rattle.ll_book.specs.Places.{Adds, IsBefore, IsNext, Removes, stands};
ghost use Rattle.ll_book.specs.declared.place.OrderKey.{OrderKey};

use crate::place::OrderKey;
use std::alloc::{AllocError, Global};
use std::collections::{BTreeSet, Bound};
use std::marker::Model;

/// A set of places, in order.
#[derive(Drop)]
pub struct Order {
    places: BTreeSet<OrderKey>,
}

impl Model for Order {
    ghost use Rattle.std.specs.Prelude.{List};
    ghost use Rattle.ll_book.specs.declared.place.OrderKey.{OrderKey};

    ghost Value = { List OrderKey };

    ghost view = { λ o. o.places.keys };
}

impl Order {
    /// Returns an order without places.
    pub fn new(alloc: Global) -> Order
        ensures { result ≡ [] }
    {
        Order {
            places: BTreeSet::new(alloc),
        }
    }

    /// Returns how many places are in the order.
    pub fn len(&self) -> usize
        ensures value { result ≡ length self.now }
        ensures few { result < 2 ^ 63 }
    {
        self.places.len()
    }

    /// Adds `place`, unless it is there.
    pub fn add(&mut self, place: OrderKey) -> Result<(), AllocError>
        ensures added { OnOk result (Adds place self.old self.new) }
        ensures unchanged { OnErr result (self.new ≡ self.old) }
    {
        self.places.insert(place)?;
        Ok(())
    }

    /// Removes `place`, if it is there.
    pub fn remove(&mut self, place: OrderKey)
        ensures { Removes place self.old self.new }
    {
        self.places.remove(&place);
    }

    /// Returns the first place after `place` that is in the order, and adds 1 to `looked`. There is no other way to read an order, so `looked` counts
    /// every place that is looked at.
    pub fn first_after(&self, place: OrderKey, looked: &mut usize) -> Option<OrderKey>
        requires { looked.old < 2 ^ 63 }
        ensures some { IfSome result (λ next. IsNext place next self.now) }
        ensures none { IfNone result ((p : OrderKey) → IsBefore place p → stands self.now p ≡ false) }
        ensures looked { looked.new ≡ looked.old + 1 }
    {
        *looked += 1;
        let next = self
            .places
            .range((Bound::Excluded(place), Bound::Unbounded))
            .next()?;
        Some(*next)
    }
}
