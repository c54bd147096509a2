//! What the types of one desk mean.

ghost use Rattle.site_base.specs.Configured.{Configured};

use std::marker::Brand;

/// The name of a configuration. A desk, its root and its shares have it in their types, so that
/// what comes from under their locks is known to be of that configuration.
pub trait Naming {
    ghost config: { Configured };
}

impl Naming for Brand {
    ghost use Rattle.std.specs.Prelude.{[]};

    ghost config = { record { rows = 0; managers = []; products = []; points = [] } };
}
