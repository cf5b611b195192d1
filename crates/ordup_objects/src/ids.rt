//! The identifiers of objects and sites. Each holds an index in the order of declaration, from 0.
ghost use Rattle.std.specs.Prelude.{◌≡◌};

use std::marker::Model;

/// An object of the store.
#[derive(Clone, Copy, Debug, PartialEq, Eq)]
pub struct ObjectId {
    object: u16,
}

impl Model for ObjectId {
    ghost use Rattle.std.specs.Prelude.{ℕ};

    ghost Value = { ℕ };

    ghost view = { λ o. o.object };

    ghost inverse = { λ n. record { object = n } };
}

impl ObjectId {
    // promise: identifiers are indexes
    /// The object with this index.
    pub fn new(index: u16) -> Self
        ensures { result ≡ index }
    {
        ObjectId { object: index }
    }

    // promise: as ObjectId::new
    /// The index of the object.
    pub fn index(self) -> usize
        ensures { result ≡ self }
    {
        self.object as usize
    }
}

/// A site of the store.
#[derive(Clone, Copy, Debug, PartialEq, Eq)]
pub struct SiteId {
    site: u8,
}

impl Model for SiteId {
    ghost use Rattle.std.specs.Prelude.{ℕ};

    ghost Value = { ℕ };

    ghost view = { λ s. s.site };

    ghost inverse = { λ n. record { site = n } };
}

impl SiteId {
    // promise: as ObjectId::new
    /// The site with this index.
    pub fn new(index: u8) -> Self
        ensures { result ≡ index }
    {
        SiteId { site: index }
    }

    // promise: as ObjectId::new
    /// The index of the site.
    pub fn index(self) -> usize
        ensures { result ≡ self }
    {
        self.site as usize
    }
}
