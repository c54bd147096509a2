//! The configuration of a site, as its site file gives it.

ghost use Rattle.std.specs.Prelude.{◌≡◌, ◌≤◌, ◌==◌, nat_eq, is_some, true, IfOk, IfSome};
ghost use Rattle.std.specs.List.{list_any, list_all};
ghost use Rattle.site_base.specs.Configured.{none_alike, same_product, same_point, are_products};
ghost use Rattle.site_base.specs.Configured.{has_product, are_nozzles, are_points, is_site};
ghost use Rattle.site_base.specs.Names.{is_name};
ghost use Rattle.site_base.specs.Ranges.{is_between};

use crate::amounts::{Millilitres, Mills};
use crate::limits::{NOZZLES, POINTS, PRODUCTS};
use crate::listing::Listing;
use crate::memory::NoMemory;
use crate::numbers::{FpNo, ProductNo, TillNo};
use crate::product_name::ProductName;
use std::alloc::Global;
use std::marker::Model;

/// The most rows that a site file may allow.
pub const GREATEST_ROWS: u32 = 1_000_000;

/// A product of the site.
#[derive(Debug, Drop)]
pub struct ProductEntry {
    /// Its number.
    pub number: ProductNo,
    /// Its name.
    pub name: ProductName,
    /// Its price when the site opens.
    pub price: Mills,
}

/// A nozzle of a fuelling point.
#[derive(Clone, Copy, Debug, PartialEq, Eq)]
pub struct NozzleEntry {
    /// The product that it delivers.
    pub product: ProductNo,
    /// Its meter's reading when the site opens.
    pub reading: Millilitres,
}

/// A fuelling point of the site.
#[derive(Debug, Drop)]
pub struct PointEntry {
    /// Its number.
    pub number: FpNo,
    /// Its nozzles, 1 to `NOZZLES`: nozzle n is the nth.
    pub nozzles: Listing<NozzleEntry>,
}

/// The configuration of a site, fit by its type: each number is in its range, no till, product
/// number, product name or point number is in it twice, and the product of each nozzle is there.
#[derive(Debug, Drop)]
pub struct SiteConfig {
    rows: u32,
    managers: Vec<TillNo>,
    products: Vec<ProductEntry>,
    points: Vec<PointEntry>,
}

impl Model for SiteConfig {
    ghost use Rattle.std.specs.Prelude.{◌≡◌, true};
    ghost use Rattle.site_base.specs.Configured.{Configured, is_site};

    ghost Value = { Configured };

    ghost view = { λ c. record {
      rows = c.rows;
      managers = c.managers.items;
      products = c.products.items;
      points = c.points.items;
    } };

    ghost invariant = { λ c. is_site
        (record {
          rows = c.rows;
          managers = c.managers.items;
          products = c.products.items;
          points = c.points.items;
        }) ≡ true };
}

impl SiteConfig {
    /// Makes the site with at most `rows` rows by calls that check for a full book, and with these
    /// managers, products and points. Returns None exactly if a number of rows, products, points or
    /// nozzles is out of range, a name isn't fit, a till, product number, product name or point
    /// number is given twice, or a nozzle's product isn't there. It takes no memory.
    pub fn try_new(
        rows: u32,
        managers: Vec<TillNo>,
        products: Vec<ProductEntry>,
        points: Vec<PointEntry>,
    ) -> Option<SiteConfig>
        ensures fit { is_some result ≡ is_site
            (record {
              rows = rows;
              managers = managers.items;
              products = products.items;
              points = points.items;
            }) }
        ensures value { IfSome result (λ c. c
            ≡ record {
              rows = rows;
              managers = managers.items;
              products = products.items;
              points = points.items;
            }) }
    {
        let fit = 1 <= rows
            && rows <= GREATEST_ROWS
            && no_till_twice(&managers)
            && are_fit_products(&products)
            && are_fit_points(&products, &points);
        if fit {
            Some(SiteConfig {
                rows,
                managers,
                products,
                points,
            })
        } else {
            None
        }
    }

    /// Returns the most rows that a book may have in memory: calls that check for a full book add
    /// no more.
    pub fn rows(&self) -> u32
        ensures value { result ≡ self.now.rows }
        ensures range { (1 ≤ result) × (result ≤ GREATEST_ROWS) }
    {
        self.rows
    }

    /// Returns the tills that are managers, none twice.
    pub fn managers(&self) -> &[TillNo]
        ensures value { result.now ≡ self.now.managers }
        ensures fit { none_alike nat_eq self.now.managers ≡ true }
    {
        &self.managers
    }

    /// Returns the products, in configured order: 1 to `PRODUCTS`, each with a fit name, and no two
    /// with the same number or the same name.
    pub fn products(&self) -> &[ProductEntry]
        ensures value { result.now ≡ self.now.products }
        ensures fit { are_products self.now.products ≡ true }
    {
        &self.products
    }

    /// Returns the fuelling points, in configured order: 1 to `POINTS`, no two with the same
    /// number, each with 1 to `NOZZLES` nozzles of products that are there.
    pub fn points(&self) -> &[PointEntry]
        ensures value { result.now ≡ self.now.points }
        ensures fit { are_points self.now.products self.now.points ≡ true }
    {
        &self.points
    }

    /// Returns a copy of the configuration.
    pub fn copy(&self, alloc: Global) -> Result<SiteConfig, NoMemory>
        ensures { IfOk result (λ c. c ≡ self.now) }
    {
        let managers = Vec::from_slice(alloc, &self.managers)?;
        let products = copy_products(alloc, &self.products)?;
        let points = copy_points(alloc, &self.points)?;
        Ok(SiteConfig {
            rows: self.rows,
            managers,
            products,
            points,
        })
    }
}

impl ProductEntry {
    /// A product of the same number or the same name.
    fn is_like(&self, other: &ProductEntry) -> bool
        ensures { result ≡ same_product self.now other.now }
    {
        self.number.get() == other.number.get() || self.name.as_str() == other.name.as_str()
    }

    fn is_among(&self, others: &[ProductEntry]) -> bool
        ensures { result ≡ list_any (λ other. same_product self.now other) others.now }
    {
        others.iter().any(|other| self.is_like(other))
    }

    fn copy(&self, alloc: Global) -> Result<ProductEntry, NoMemory>
        ensures { IfOk result (λ e. e ≡ self.now) }
    {
        let name = self.name.copy(alloc)?;
        Ok(ProductEntry {
            number: self.number,
            name,
            price: self.price,
        })
    }
}

impl PointEntry {
    fn is_among(&self, others: &[PointEntry]) -> bool
        ensures { result ≡ list_any (λ other. same_point self.now other) others.now }
    {
        let number = self.number.get();
        others.iter().any(|other| number == other.number.get())
    }

    /// As many nozzles as may be, each of a product that is there.
    fn is_fit(&self, products: &[ProductEntry]) -> bool
        ensures { result ≡ are_nozzles products.now self.now.nozzles }
    {
        let nozzles = self.nozzles.as_slice();
        is_count(nozzles.len(), NOZZLES as usize) && are_supplied(products, nozzles)
    }

    fn copy(&self, alloc: Global) -> Result<PointEntry, NoMemory>
        ensures { IfOk result (λ e. e ≡ self.now) }
    {
        let nozzles = Vec::from_slice(alloc, self.nozzles.as_slice())?;
        Ok(PointEntry {
            number: self.number,
            nozzles: Listing::from(nozzles),
        })
    }
}

/// From 1 to `most`.
fn is_count(count: usize, most: usize) -> bool
    ensures { result ≡ is_between 1 most count }
{
    1 <= count && count <= most
}

fn is_product(products: &[ProductEntry], number: ProductNo) -> bool
    ensures { result ≡ has_product products.now number }
{
    products
        .iter()
        .any(|product| product.number.get() == number.get())
}

fn are_supplied(products: &[ProductEntry], nozzles: &[NozzleEntry]) -> bool
    ensures { result ≡ list_all (λ n. has_product products.now n.product) nozzles.now }
{
    nozzles
        .iter()
        .all(|nozzle| is_product(products, nozzle.product))
}

/// Each name is fit, by its type.
fn tell_names(products: &[ProductEntry])
    ensures { list_all (λ p. is_name p.name) products.now ≡ true }
{
    for product in products {
        let _fit = product.name.as_str();
    }
}

fn have_fit_nozzles(products: &[ProductEntry], points: &[PointEntry]) -> bool
    ensures { result ≡ list_all (λ p. are_nozzles products.now p.nozzles) points.now }
{
    points.iter().all(|point| point.is_fit(products))
}

fn is_among(till: TillNo, others: &[TillNo]) -> bool
    ensures { result ≡ list_any (λ other. till == other) others.now }
{
    others.iter().any(|other| till.get() == other.get())
}

fn no_till_twice(tills: &[TillNo]) -> bool
    ensures { result ≡ none_alike nat_eq tills.now }
{
    match tills {
        [] => true,
        [first, rest @ ..] => { !is_among(*first, rest) && no_till_twice(rest) }
    }
}

fn no_product_twice(products: &[ProductEntry]) -> bool
    ensures { result ≡ none_alike same_product products.now }
{
    match products {
        [] => true,
        [first, rest @ ..] => { !first.is_among(rest) && no_product_twice(rest) }
    }
}

fn no_point_twice(points: &[PointEntry]) -> bool
    ensures { result ≡ none_alike same_point points.now }
{
    match points {
        [] => true,
        [first, rest @ ..] => { !first.is_among(rest) && no_point_twice(rest) }
    }
}

fn are_fit_products(products: &[ProductEntry]) -> bool
    ensures { result ≡ are_products products.now }
{
    tell_names(products);
    is_count(products.len(), PRODUCTS as usize) && no_product_twice(products)
}

fn are_fit_points(products: &[ProductEntry], points: &[PointEntry]) -> bool
    ensures { result ≡ are_points products.now points.now }
{
    is_count(points.len(), POINTS as usize)
        && have_fit_nozzles(products, points)
        && no_point_twice(points)
}

fn copy_products(alloc: Global, products: &[ProductEntry]) -> Result<Vec<ProductEntry>, NoMemory>
    ensures { IfOk result (λ v. v.items ≡ products.now) }
{
    let mut copies = Vec::new(alloc);
    for product in products {
        copies.push(product.copy(alloc)?)?;
    }
    Ok(copies)
}

fn copy_points(alloc: Global, points: &[PointEntry]) -> Result<Vec<PointEntry>, NoMemory>
    ensures { IfOk result (λ v. v.items ≡ points.now) }
{
    let mut copies = Vec::new(alloc);
    for point in points {
        copies.push(point.copy(alloc)?)?;
    }
    Ok(copies)
}
