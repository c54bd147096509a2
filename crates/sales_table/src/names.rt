//! The names of products.

ghost use Rattle.std.specs.Prelude.{◌≡◌};
ghost use Rattle.sales_table.specs.Tables.{name_of};

use site_base::{ProductEntry, ProductNo};

/// Returns the name of the product with this number; an empty name if the product isn't configured.
pub fn name_of(products: &[ProductEntry], q: ProductNo) -> &str
    ensures { result.now ≡ name_of q products.now }
{
    for product in products {
        if product.number == q {
            return product.name.as_str();
        }
    }
    ""
}
