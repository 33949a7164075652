//! Loads: a catalogue with its domain and locale.
ghost use Rattle.std.specs.Prelude.{◌≡◌, IfOk};
ghost use Rattle.std.specs.Arc.{arc_value};
ghost use Rattle.live_set.specs.Names.{IsName};
ghost use Rattle.live_set.specs.Slots.{order_of, probe};

use crate::Name;
use byte_text::TextKey;
use catalogue::Catalogue;
use std::alloc::AllocError;
use std::cmp::Ordering;
use std::marker::Model;
use std::sync::Arc;

/// A catalogue for a text domain and a locale. Contracts see it as the two names and the catalogue's map.
#[derive(Drop)]
pub struct Load {
    pub domain: Name,
    pub locale: Name,
    pub catalogue: Arc<Catalogue>,
}

impl Model for Load {
    ghost use Rattle.live_set.specs.Loads.{LoadValue};

    ghost Value = { LoadValue };

    ghost use Rattle.std.specs.Arc.{arc_value};

    ghost view = { λ load. record { domain = load.domain; locale = load.locale; map = arc_value load.catalogue } };
}

impl Load {
    /// A second load that shares this one's catalogue. Fails if memory runs out.
    pub fn try_clone(&self) -> Result<Load, AllocError>
        ensures { IfOk result (λ load. load ≡ self.now) }
    {
        Ok(Load {
            domain: self.domain.try_clone()?,
            locale: self.locale.try_clone()?,
            catalogue: Arc::try_clone(&self.catalogue)?,
        })
    }

    /// The text domain's name.
    pub(crate) fn domain(&self) -> TextKey<'_>
        ensures { result ≡ self.now.domain }
    {
        self.domain.key()
    }

    /// The locale's name.
    pub(crate) fn locale(&self) -> TextKey<'_>
        ensures { result ≡ self.now.locale }
    {
        self.locale.key()
    }

    /// The load's catalogue. By the clause `name`, the locale of a load is always a name.
    pub(crate) fn catalogue(&self) -> &Catalogue
        ensures map { result.now ≡ self.now.map }
        ensures name { IsName self.now.locale }
    {
        // Mentioning the name makes its invariant available to the proof.
        let _name = self.locale.as_str();
        &*self.catalogue
    }

    /// From now on the load is one of this catalogue.
    pub(crate) fn replace_catalogue(&mut self, catalogue: Arc<Catalogue>)
        ensures { self.new ≡ record {
          domain = self.old.domain;
          locale = self.old.locale;
          map = arc_value catalogue;
        } }
    {
        self.catalogue = catalogue;
    }

    /// Compares by locale first, since locales differ most, and then by domain.
    pub(crate) fn compare(&self, domain: &TextKey<'_>, locale: &TextKey<'_>) -> Ordering
        ensures { result ≡ order_of self.now (probe domain.now locale.now) }
    {
        match self.locale().cmp(locale) {
            Ordering::Equal => self.domain().cmp(domain),
            order => order,
        }
    }
}
