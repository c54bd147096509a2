//! The database that an address names.

ghost use Rattle.std.specs.Prelude.{◌≡◌, ◌+◌, true, IfSome, IsSome, ◌↔◌};
ghost use Rattle.device_map.specs.Stages.{Gives};
ghost use Rattle.device_map.specs.Addresses.{database_of_octet, transaction_of, is_point_octet};
ghost use Rattle.device_map.specs.Addresses.{is_product_octet, database_at};

use crate::decimal::{Digits, SaleDigits};
use crate::fault::MapFault;
use crate::ids::{POINT_ADDRESS, PRODUCT_ADDRESS, SHIFT_FORM, SITE_ADDRESS, TRANSACTION_FORM};
use site_base::{FpNo, ProductNo};

/// A database of the site.
#[derive(Clone, Copy)]
pub enum Database {
    /// The database of the site.
    Site,
    /// The database of a fuelling point.
    Point(FpNo),
    /// The database of a transaction of a fuelling point, by its digits as they came. Whether these
    /// are decimal is checked after the items of the request, and before the items' widths.
    Transaction(FpNo, SaleDigits),
    /// The database of a product.
    Product(ProductNo),
}

impl Database {
    /// Returns the database that this address names.
    #[tactic(auto, unfolding(crate::specs::Addresses::database_at))]
    pub fn at(address: &[u8]) -> Result<Database, MapFault>
        ensures { Gives result (database_at address.now) }
    {
        match address {
            [octet] => Database::of_octet(*octet),
            [octet, TRANSACTION_FORM, high, low] => {
                let seq = Digits::new(*high, *low);
                Database::of_transaction(*octet, SaleDigits { shift: None, seq })
            }
            [octet, SHIFT_FORM, shift_high, shift_low, high, low] => {
                let shift = Some(Digits::new(*shift_high, *shift_low));
                let seq = Digits::new(*high, *low);
                Database::of_transaction(*octet, SaleDigits { shift, seq })
            }
            _ => Err(MapFault::BadAddress),
        }
    }

    fn of_octet(octet: u8) -> Result<Database, MapFault>
        ensures { Gives result (database_of_octet octet) }
    {
        if octet == SITE_ADDRESS {
            return Ok(Database::Site);
        }
        if let Some(point) = point_of(octet) {
            return Ok(Database::Point(point));
        }
        match product_of(octet) {
            Some(product) => Ok(Database::Product(product)),
            None => Err(MapFault::BadAddress),
        }
    }

    fn of_transaction(octet: u8, digits: SaleDigits) -> Result<Database, MapFault>
        ensures { Gives result (transaction_of octet digits) }
    {
        match point_of(octet) {
            Some(point) => Ok(Database::Transaction(point, digits)),
            None => Err(MapFault::BadAddress),
        }
    }
}

/// The fuelling point whose address begins with this octet.
fn point_of(octet: u8) -> Option<FpNo>
    ensures there { IsSome result ↔ (is_point_octet octet ≡ true) }
    ensures value { IfSome result (λ p. POINT_ADDRESS + p ≡ octet) }
{
    if octet <= POINT_ADDRESS {
        return None;
    }
    FpNo::new(octet - POINT_ADDRESS)
}

/// The product whose address is this octet.
fn product_of(octet: u8) -> Option<ProductNo>
    ensures there { IsSome result ↔ (is_product_octet octet ≡ true) }
    ensures value { IfSome result (λ q. PRODUCT_ADDRESS + q ≡ octet) }
{
    if octet <= PRODUCT_ADDRESS {
        return None;
    }
    ProductNo::new(octet - PRODUCT_ADDRESS)
}
