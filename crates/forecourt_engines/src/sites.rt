//! The site that the program itself contains.

ghost use Rattle.std.specs.Prelude.{◌≡◌, ◌≤◌, true, IfOk};
ghost use Rattle.site_base.specs.declared.config.TheConstants.{GREATEST_ROWS};
ghost use Rattle.site_base.specs.Names.{is_name};
ghost use Rattle.forecourt_engines.specs.Sites.{known_site, known_site_of, known_points};
ghost use Rattle.forecourt_engines.specs.Sites.{known_point};

use site_base::{
    FpNo, GREATEST_PRICE, GREATEST_READING, GREATEST_ROWS, Listing, Millilitres, Mills, NoMemory,
    NozzleEntry, POINTS, PRODUCTS, PointEntry, ProductEntry, ProductName, ProductNo, SiteConfig,
    TillNo,
};
use std::alloc::Global;

/// Returns the known site, with as many rows as a site file may allow.
pub fn known_site(alloc: Global) -> Result<SiteConfig, NoMemory>
    ensures { IfOk result (λ config. config ≡ known_site) }
{
    known_site_of(alloc, GREATEST_ROWS)
}

/// Returns a site of two products (diesel at 1500 mills, petrol at 1799), five fuelling points that
/// each have a nozzle of diesel from reading 0 and a nozzle of petrol from reading 1000, and till 1
/// as a manager. Its book has at most this many rows.
pub fn known_site_of(alloc: Global, rows: u32) -> Result<SiteConfig, NoMemory>
    requires { (1 ≤ rows) × (rows ≤ GREATEST_ROWS) }
    ensures { IfOk result (λ config. config ≡ known_site_of rows) }
{
    let mut managers = Vec::new(alloc);
    managers.push(TillNo::new(1).unwrap())?;
    let mut products = Vec::new(alloc);
    products.push(make_product(alloc, 1, "diesel", 1500)?)?;
    products.push(make_product(alloc, 2, "petrol", 1799)?)?;
    let points = make_points(alloc)?;
    Ok(SiteConfig::try_new(rows, managers, products, points).unwrap())
}

fn make_product(alloc: Global, number: u8, name: &str, price: u32) -> Result<ProductEntry, NoMemory>
    requires number { (1 ≤ number) × (number ≤ PRODUCTS) }
    requires name { is_name name.now ≡ true }
    requires price { (1 ≤ price) × (price ≤ GREATEST_PRICE) }
    ensures { IfOk result (λ e. e ≡ record { number = number; name = name.now; price = price }) }
{
    let name = ProductName::new(String::from_str(alloc, name)?).unwrap();
    Ok(ProductEntry {
        number: ProductNo::new(number).unwrap(),
        name,
        price: Mills::new(price).unwrap(),
    })
}

fn make_points(alloc: Global) -> Result<Vec<PointEntry>, NoMemory>
    ensures { IfOk result (λ v. v.items ≡ known_points) }
{
    let mut points = Vec::new(alloc);
    points.push(make_point(alloc, 1)?)?;
    points.push(make_point(alloc, 2)?)?;
    points.push(make_point(alloc, 3)?)?;
    points.push(make_point(alloc, 4)?)?;
    points.push(make_point(alloc, 5)?)?;
    Ok(points)
}

fn make_point(alloc: Global, number: u8) -> Result<PointEntry, NoMemory>
    requires { (1 ≤ number) × (number ≤ POINTS) }
    ensures { IfOk result (λ e. e ≡ known_point number) }
{
    let mut nozzles = Vec::new(alloc);
    nozzles.push(make_nozzle(1, 0))?;
    nozzles.push(make_nozzle(2, 1000))?;
    Ok(PointEntry {
        number: FpNo::new(number).unwrap(),
        nozzles: Listing::from(nozzles),
    })
}

fn make_nozzle(product: u8, reading: u64) -> NozzleEntry
    requires product { (1 ≤ product) × (product ≤ PRODUCTS) }
    requires reading { reading ≤ GREATEST_READING }
    ensures { result ≡ record { product = product; reading = reading } }
{
    NozzleEntry {
        product: ProductNo::new(product).unwrap(),
        reading: Millilitres::new(reading).unwrap(),
    }
}
