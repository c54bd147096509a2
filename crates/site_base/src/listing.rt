//! Lists that a record holds as one of its fields.

use std::marker::Model;

/// The members of a list, in their order. It is made from a `Vec` and gives that back, both without
/// memory. Contracts see only the list, and not the room in which it is kept.
#[derive(Debug, Drop)]
pub struct Listing<T> {
    members: Vec<T>,
}

impl<T> Model for Listing<T> {
    ghost use Rattle.std.specs.Prelude.{List};

    ghost Value = { List T };

    ghost view = { λ l. l.members.items };
}

impl<T> Listing<T> {
    ghost use Rattle.std.specs.Prelude.{◌≡◌};

    /// Returns the members, in order.
    pub fn as_slice(&self) -> &[T]
        ensures { result.now ≡ self.now }
    {
        &self.members
    }

    /// Returns the members, as a `Vec` again.
    pub fn into_vec(self) -> Vec<T>
        ensures { result.items ≡ self }
    {
        self.members
    }
}

impl<T> From<Vec<T>> for Listing<T> {
    ghost use Rattle.std.specs.Prelude.{◌≡◌};

    ghost from_gives = { λ members l. l ≡ members.items };

    fn from(members: Vec<T>) -> Self {
        Listing { members }
    }
}
