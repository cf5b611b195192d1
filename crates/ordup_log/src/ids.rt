//! The identifier of a group. It holds an index in the order of declaration, from 0.
ghost use Rattle.std.specs.Prelude.{◌≡◌};

use std::marker::Model;

/// A group of objects.
#[derive(Clone, Copy, Debug, PartialEq, Eq)]
pub struct GroupId {
    group: u8,
}

impl Model for GroupId {
    ghost use Rattle.std.specs.Prelude.{ℕ};

    ghost Value = { ℕ };

    ghost view = { λ g. g.group };

    ghost inverse = { λ n. record { group = n } };
}

impl GroupId {
    // promise: as Groups::new
    /// The group with this index.
    pub fn new(index: u8) -> Self
        ensures { result ≡ index }
    {
        GroupId { group: index }
    }

    // promise: as Groups::new
    /// The index of the group.
    pub fn index(self) -> usize
        ensures { result ≡ self }
    {
        self.group as usize
    }
}
