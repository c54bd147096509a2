//! The keys of a site file.

ghost use Rattle.std.specs.Prelude.{◌≡◌};
ghost use Rattle.site_file.specs.Keys.{key_text};

use std::fmt;

/// A key of a site file. `Product` is a key of the file, whose value is the list of products, and
/// of a nozzle, whose value is the number of one.
#[derive(Clone, Copy, Debug, PartialEq, Eq)]
pub enum Key {
    /// The most rows that are in memory at once.
    Rows,
    /// The tills that are managers.
    Managers,
    /// The products, or the product of a nozzle.
    Product,
    /// The fuelling points.
    Point,
    /// The number of a product or of a fuelling point.
    Number,
    /// The name of a product.
    Name,
    /// The price of a product.
    Price,
    /// The nozzles of a fuelling point.
    Nozzles,
    /// The reading of a nozzle's meter.
    Reading,
}

impl Key {
    /// Returns the key as a site file has it.
    pub fn text(self) -> &'static str
        ensures { result.now ≡ key_text self }
    {
        match self {
            Key::Rows => "rows",
            Key::Managers => "managers",
            Key::Product => "product",
            Key::Point => "point",
            Key::Number => "number",
            Key::Name => "name",
            Key::Price => "price",
            Key::Nozzles => "nozzles",
            Key::Reading => "reading",
        }
    }
}

impl fmt::Display for Key {
    ghost use Rattle.std.specs.Prelude.{Some};
    ghost use Rattle.site_file.specs.Keys.{key_text};

    ghost output = { λ key. Some (key_text key) };

    fn fmt<W: fmt::Write>(&self, f: &mut fmt::Formatter<W>) -> fmt::Result {
        f.write_str(self.text())
    }
}
