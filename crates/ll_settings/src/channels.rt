//! Settings of channels, found by name.
ghost use Rattle.std.specs.Prelude.{◌≡◌, ◌++◌, ◌∷◌, [], ℕ, List, None, Some, MatchOption, OnErr, OnOk, if◌then◌else◌, bytes_eq, length, slice_get, string_bytes};
ghost use Rattle.std.specs.Option.{option_or};
ghost use Rattle.ll_settings.specs.Channels.{channel_of_name};
ghost use Rattle.ll_settings.specs.ChannelPlaces.{place_in};

use crate::settings::Settings;
use indexmap::IndexMap;
use std::alloc::{AllocError, Global};
use std::marker::Model;

/// The settings of channels in the order in which they were added, with an index by name.
pub struct Channels {
    all: Vec<Settings>,
    places: IndexMap<String, usize>,
}

impl Drop for Channels {
    fn drop(self) {
        let Channels {
            all: _all,
            places: _places,
        } = self;
    }
}

impl Model for Channels {
    ghost use Rattle.std.specs.Prelude.{List};
    ghost use Rattle.ll_settings.specs.Settings.{Configuration};
    ghost use Rattle.ll_settings.specs.ChannelPlaces.{FindsPlaces};

    ghost Value = { List Configuration };

    ghost view = { λ d. d.all.items };

    ghost invariant = { λ d. FindsPlaces d.places.entries d.all.items };
}

impl Channels {
    /// Returns no channels.
    pub fn new(alloc: Global) -> Channels
        ensures { result ≡ [] }
    {
        Channels {
            all: Vec::new(alloc),
            places: IndexMap::new(alloc),
        }
    }

    /// Returns the number of channels.
    pub fn len(&self) -> usize
        ensures { result ≡ length self.now }
    {
        self.all.len()
    }

    /// Returns the place of the first channel called `name`, and its settings. Places count from 0.
    pub fn find(&self, name: &str) -> Option<(usize, &Settings)>
        ensures { MatchOption result (channel_of_name self.now 0 name.now ≡ None)
            (λ f. channel_of_name self.now 0 name.now ≡ Some (f.0, f.1.now)) }
    {
        let place = *self.places.get(name)?;
        let settings = self.all.get(place)?;
        Some((place, settings))
    }

    /// Returns the settings of the channel at place `at`, if there is one.
    pub fn get(&self, at: usize) -> Option<&Settings>
        ensures { MatchOption result (slice_get self.now at ≡ None) (λ s. slice_get self.now at ≡ Some s.now) }
    {
        self.all.get(at)
    }

    /// Adds a channel at the end. If its name is taken, that name still finds the earlier channel.
    pub fn add(&mut self, alloc: Global, settings: Settings) -> Result<(), AllocError>
        ensures added { OnOk result (self.new ≡ self.old ++ settings ∷ []) }
        ensures unchanged { OnErr result (self.new ≡ self.old) }
    {
        let name = String::from_str(alloc, settings.channel())?;
        self.all.reserve(1)?;
        add_name(&mut self.places, name, self.all.len())?;
        self.all.push_reserved(settings);
        Ok(())
    }
}

/// Adds `name` with `place`, unless the name has a place.
fn add_name(
    places: &mut IndexMap<String, usize>,
    name: String,
    place: usize,
) -> Result<(), AllocError>
    ensures added { OnOk result ((n : List ℕ) → place_in places.new.entries n
        ≡ option_or (place_in places.old.entries n) (if bytes_eq n (string_bytes name) then Some place else None)) }
    ensures unchanged { OnErr result (places.new.entries ≡ places.old.entries) }
{
    if places.contains_key(name.as_str()) {
        return Ok(());
    }
    match places.insert(name, place) {
        Ok(_) => Ok(()),
        Err(_) => Err(AllocError),
    }
}
