//! The places of a shelf's unpaid sales.

ghost use Rattle.std.specs.Prelude.{◌≡◌, ◌+◌, if◌then◌else◌};
ghost use Rattle.transaction_buffer.specs.UnpaidPlaces.{one_if_kept, place_kept, place_with};
ghost use Rattle.transaction_buffer.specs.UnpaidPlaces.{place_without};

/// The places of a shelf's unpaid sales: at most two, one for each unpaid sale that a point may
/// have.
#[derive(Clone, Copy, Debug, PartialEq, Eq)]
pub struct UnpaidPlaces {
    /// One place.
    pub one: Option<usize>,
    /// The other place.
    pub other: Option<usize>,
}

impl UnpaidPlaces {
    /// No place.
    pub const NONE: Self = UnpaidPlaces {
        one: None,
        other: None,
    };

    /// Returns the number of places.
    pub fn count(self) -> u8
        ensures { result ≡ one_if_kept self.one + one_if_kept self.other }
    {
        u8::from(self.one.is_some()) + u8::from(self.other.is_some())
    }

    /// Returns the places after one more sale, which is at this place. The place is among them if
    /// the sale is unpaid and there were fewer than two.
    pub fn after_sale(self, place: usize, is_unpaid: bool) -> Self
        ensures one { result.one ≡ (if is_unpaid then place_with self.one place else self.one) }
        ensures other { result.other
            ≡ (if is_unpaid then place_kept self.one self.other place else self.other) }
    {
        if !is_unpaid {
            return self;
        }
        if self.one.is_none() {
            UnpaidPlaces {
                one: Some(place),
                other: self.other,
            }
        } else {
            UnpaidPlaces {
                one: self.one,
                other: Some(place),
            }
        }
    }

    /// Returns the places after a change of the unpaid sale at this place. The place is dropped if
    /// the sale is paid now.
    pub fn after_change(self, place: usize, is_unpaid: bool) -> Self
        ensures one { result.one ≡ (if is_unpaid then self.one else place_without self.one place) }
        ensures other { result.other
            ≡ (if is_unpaid then self.other else place_without self.other place) }
    {
        if is_unpaid {
            return self;
        }
        UnpaidPlaces {
            one: unless(self.one, place),
            other: unless(self.other, place),
        }
    }
}

/// The place, unless it is this one.
fn unless(kept: Option<usize>, place: usize) -> Option<usize>
    ensures { result ≡ place_without kept place }
{
    match kept {
        Some(at) if at == place => None,
        _ => kept,
    }
}
