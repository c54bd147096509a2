//! The products of a site file.

ghost use Rattle.std.specs.Prelude.{◌≡◌, ◌≤◌, [], false, IfOk};
ghost use Rattle.site_base.specs.Configured.{has_product};
ghost use Rattle.toml.specs.View.{view, items_view, table_view};
ghost use Rattle.site_file.specs.declared.key.Key.TheVariants as key;
ghost use Rattle.site_file.specs.Saying.{Gives};
ghost use Rattle.site_file.specs.SiteFile as spec;

use crate::by_number::Products;
use crate::fault::ConfigFault;
use crate::key::Key;
use crate::unknown_keys::with_keys;
use crate::values::{list_at, number_at, table, text, value_at};
use site_base::{GREATEST_PRICE, Mills, PRODUCTS, ProductEntry, ProductName, ProductNo};
use std::alloc::Global;
use toml::{Table, Value};

/// Returns the products of a site file, in configured order.
#[tactic(auto, unfolding(crate::specs::SiteFile::products_of))]
pub fn products_of(alloc: Global, file: &Table) -> Result<Products, ConfigFault>
    ensures { Gives (λ p. p) result (spec.products_of (table_view file.now)) }
{
    products_in(alloc, list_at(file, Key::Product, usize::from(PRODUCTS))?)
}

fn products_in(alloc: Global, members: &[Value]) -> Result<Products, ConfigFault>
    ensures { Gives (λ p. p) result (spec.products_from [] (items_view members.now)) }
{
    let mut products = Products::new(alloc);
    for member in members {
        let product = product_of(alloc, &products, member)?;
        products.push(product)?;
    }
    Ok(products)
}

/// A product whose number and name aren't among those taken.
#[tactic(auto, unfolding(crate::specs::SiteFile::product_of))]
fn product_of(alloc: Global, taken: &Products, value: &Value) -> Result<ProductEntry, ConfigFault>
    ensures said { Gives (λ p. p) result (spec.product_of taken.now (view value.now)) }
    ensures new { IfOk result (λ p. has_product taken.now p.number ≡ false) }
{
    let product = table(value, Key::Product)?;
    with_keys(alloc, product, &[Key::Number, Key::Name, Key::Price])?;
    let number = product_number(taken, product)?;
    let name = product_name(alloc, taken, product)?;
    let price = product_price(product)?;
    Ok(ProductEntry {
        number,
        name,
        price,
    })
}

/// A number that none of the products taken has.
#[tactic(auto, unfolding(crate::specs::SiteFile::product_number))]
fn product_number(taken: &Products, product: &Table) -> Result<ProductNo, ConfigFault>
    ensures said { Gives (λ n. n) result (spec.product_number taken.now (table_view product.now)) }
    ensures new { IfOk result (λ n. has_product taken.now n ≡ false) }
{
    let number = number_at(product, Key::Number, 1, u64::from(PRODUCTS))?;
    match taken.get(number) {
        Some(_) => Err(ConfigFault::Repeated(Key::Number)),
        None => Ok(ProductNo::new(number as u8).unwrap()),
    }
}

/// A fit name that none of the products taken has.
#[tactic(auto, unfolding(crate::specs::SiteFile::product_name))]
fn product_name(
    alloc: Global,
    taken: &Products,
    product: &Table,
) -> Result<ProductName, ConfigFault>
    ensures { Gives (λ name. name) result
        (spec.product_name taken.now (table_view product.now)) }
{
    let octets = text(value_at(product, Key::Name)?, Key::Name)?.as_str();
    let Some(name) = ProductName::new(String::from_str(alloc, octets)?) else {
        return Err(ConfigFault::OutOfRange(Key::Name));
    };
    if taken.has_name(name.as_str()) {
        return Err(ConfigFault::Repeated(Key::Name));
    }
    Ok(name)
}

fn product_price(product: &Table) -> Result<Mills, ConfigFault>
    ensures { Gives (λ m. m) result
        (spec.number_at key.Price 1 GREATEST_PRICE (table_view product.now)) }
{
    let price = number_at(product, Key::Price, 1, u64::from(GREATEST_PRICE))?;
    Ok(Mills::new(price as u32).unwrap())
}
