//! The products of a site file, found by their numbers and kept in configured order.

ghost use Rattle.std.specs.Prelude.{◌≡◌, ◌++◌, [], ◌∷◌, false, is_some, IfOk, IfSome, OnOk, OnErr};
ghost use Rattle.site_base.specs.Configured.{has_product};
ghost use Rattle.site_file.specs.SiteFile.{has_name};

use indexmap::IndexMap;
use site_base::{NoMemory, ProductEntry, ProductNo};
use std::alloc::Global;
use std::marker::Model;

/// The products taken so far. Contracts see their list, in configured order.
#[derive(Drop)]
pub struct Products {
    by_number: IndexMap<u64, ProductEntry>,
}

impl Model for Products {
    ghost use Rattle.std.specs.Prelude.{◌≡◌, List, true};
    ghost use Rattle.indexmap.specs.IndexMap.{values};
    ghost use Rattle.site_base.specs.declared.config.ProductEntry.{ProductEntry};
    ghost use Rattle.site_file.specs.ByNumber.{are_by_number};

    ghost Value = { List ProductEntry };

    ghost view = { λ p. values p.by_number };

    ghost invariant = { λ p. are_by_number p.by_number.entries ≡ true };
}

impl Products {
    /// Returns no products.
    pub fn new(alloc: Global) -> Self
        ensures { result ≡ [] }
    {
        Products {
            by_number: IndexMap::new(alloc),
        }
    }

    /// Returns the product of this number, if it is there.
    pub fn get(&self, number: u64) -> Option<ProductNo>
        ensures there { is_some result ≡ has_product self.now number }
        ensures value { IfSome result (λ q. q ≡ number) }
    {
        match self.find(number) {
            Some(product) => Some(product.number),
            None => None,
        }
    }

    fn find(&self, number: u64) -> Option<&ProductEntry>
        ensures there { is_some result ≡ has_product self.now number }
        ensures value { IfSome result (λ p. p.now.number ≡ number) }
    {
        self.by_number.get(&number)
    }

    /// Does a product have this name?
    pub fn has_name(&self, name: &str) -> bool
        ensures { result ≡ has_name self.now name.now }
    {
        self.by_number
            .values()
            .any(|product| product.name.as_str() == name)
    }

    /// Adds a product, whose number is new. If memory runs out, nothing changes.
    pub fn push(&mut self, product: ProductEntry) -> Result<(), NoMemory>
        requires new { has_product self.old product.number ≡ false }
        ensures ok { OnOk result (self.new ≡ self.old ++ product ∷ []) }
        ensures err { OnErr result (self.new ≡ self.old) }
    {
        let number = u64::from(product.number.get());
        self.by_number.insert(number, product)?;
        Ok(())
    }

    /// Returns the list of the products.
    pub fn into_list(self, alloc: Global) -> Result<Vec<ProductEntry>, NoMemory>
        ensures { IfOk result (λ v. v.items ≡ self) }
    {
        let mut list = Vec::new(alloc);
        for product in self.by_number.into_values() {
            list.push(product)?;
        }
        Ok(list)
    }
}
