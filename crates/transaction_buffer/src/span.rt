//! Where the sales of a shift are on a shelf.

ghost use Rattle.std.specs.Prelude.{◌≡◌, ◌<◌};
ghost use Rattle.site_base.specs.declared.numbers.TheConstants.{GREATEST_SEQ};

/// Where the sales of a shift are on a shelf: from this place on, and how many.
#[derive(Clone, Copy, Debug, PartialEq, Eq)]
pub struct Span {
    /// The place of the first one.
    pub first: usize,
    /// The number of sales.
    pub count: u16,
}

impl Span {
    ghost use Rattle.transaction_buffer.specs.Spans.{with_one_more};

    /// No sales.
    pub const NONE: Self = Span { first: 0, count: 0 };

    /// Returns the span with one more sale, which is at this place.
    pub fn with_one_more(self, end: usize) -> Self
        requires { self.count < GREATEST_SEQ }
        ensures { result ≡ with_one_more self end }
    {
        let first = if self.count == 0 { end } else { self.first };
        Span {
            first,
            count: self.count + 1,
        }
    }
}
