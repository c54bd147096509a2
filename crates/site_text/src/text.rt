//! A configuration as the text of a site file.

ghost use Rattle.std.specs.Prelude.{◌≡◌, ◌++◌, decimal, flat_map, string_bytes};
ghost use Rattle.std.specs.Prelude.{IfOk, OnOk};
ghost use Rattle.site_text.specs.SiteText.{head_text, listed, name_lines, nozzle_text};
ghost use Rattle.site_text.specs.SiteText.{nozzles_line, number_line, point_text, product_text};
ghost use Rattle.site_text.specs.SiteText.{site_text};

use site_base::{NoMemory, NozzleEntry, PointEntry, ProductEntry, SiteConfig, TillNo};
use std::alloc::Global;

/// Returns the text of a site file with this complete configuration: its rows, its managers, each
/// product with its price, and each fuelling point with the reading of each nozzle.
pub fn site_text(alloc: Global, config: &SiteConfig) -> Result<String, NoMemory>
    ensures { IfOk result (λ text. string_bytes text ≡ site_text config.now) }
{
    let mut text = String::new(alloc);
    put_head(&mut text, config.rows(), config.managers())?;
    put_products(&mut text, config.products())?;
    put_points(&mut text, config.points())?;
    Ok(text)
}

/// Appends the rows and the managers.
fn put_head(text: &mut String, rows: u32, managers: &[TillNo]) -> Result<(), NoMemory>
    ensures { OnOk result
        (string_bytes text.new ≡ string_bytes text.old ++ head_text rows managers.now) }
{
    write!(text, "rows = {rows}\nmanagers = [")?;
    put_managers(text, managers)?;
    text.push_str("]\n")?;
    Ok(())
}

/// Appends the managers, with a comma between two.
fn put_managers(text: &mut String, managers: &[TillNo]) -> Result<(), NoMemory>
    ensures { OnOk result
        (string_bytes text.new ≡ string_bytes text.old ++ listed decimal managers.now) }
{
    let [first, others @ ..] = managers else {
        return Ok(());
    };
    write!(text, "{}", first.get())?;
    for till in others {
        write!(text, ", {}", till.get())?;
    }
    Ok(())
}

/// Appends the products, in configured order.
fn put_products(text: &mut String, products: &[ProductEntry]) -> Result<(), NoMemory>
    ensures { OnOk result
        (string_bytes text.new ≡ string_bytes text.old ++ flat_map product_text products.now) }
{
    for product in products {
        put_product(text, product)?;
    }
    Ok(())
}

/// Appends a product.
#[tactic(auto, unfolding(crate::specs::SiteText::product_text))]
fn put_product(text: &mut String, product: &ProductEntry) -> Result<(), NoMemory>
    ensures { OnOk result
        (string_bytes text.new ≡ string_bytes text.old ++ product_text product.now) }
{
    text.push_str("\n[[product]]\n")?;
    put_number(text, product.number.get())?;
    put_name(text, product)?;
    Ok(())
}

/// Appends the line of a number.
fn put_number(text: &mut String, number: u8) -> Result<(), NoMemory>
    ensures { OnOk result (string_bytes text.new ≡ string_bytes text.old ++ number_line number) }
{
    write!(text, "number = {number}\n")?;
    Ok(())
}

/// Appends the lines of a product's name and price.
fn put_name(text: &mut String, product: &ProductEntry) -> Result<(), NoMemory>
    ensures { OnOk result
        (string_bytes text.new ≡ string_bytes text.old ++ name_lines product.now) }
{
    let (name, price) = (product.name.as_str(), product.price.get());
    write!(text, "name = \"{name}\"\nprice = {price}\n")?;
    Ok(())
}

/// Appends the fuelling points, in configured order.
fn put_points(text: &mut String, points: &[PointEntry]) -> Result<(), NoMemory>
    ensures { OnOk result
        (string_bytes text.new ≡ string_bytes text.old ++ flat_map point_text points.now) }
{
    for point in points {
        put_point(text, point)?;
    }
    Ok(())
}

/// Appends a fuelling point.
#[tactic(auto, unfolding(crate::specs::SiteText::point_text))]
fn put_point(text: &mut String, point: &PointEntry) -> Result<(), NoMemory>
    ensures { OnOk result
        (string_bytes text.new ≡ string_bytes text.old ++ point_text point.now) }
{
    text.push_str("\n[[point]]\n")?;
    put_number(text, point.number.get())?;
    put_nozzles_line(text, point.nozzles.as_slice())?;
    Ok(())
}

/// Appends the line of a fuelling point's nozzles.
fn put_nozzles_line(text: &mut String, nozzles: &[NozzleEntry]) -> Result<(), NoMemory>
    ensures { OnOk result
        (string_bytes text.new ≡ string_bytes text.old ++ nozzles_line nozzles.now) }
{
    text.push_str("nozzles = [")?;
    put_nozzles(text, nozzles)?;
    text.push_str("]\n")?;
    Ok(())
}

/// Appends the nozzles of a fuelling point, with a comma between two.
fn put_nozzles(text: &mut String, nozzles: &[NozzleEntry]) -> Result<(), NoMemory>
    ensures { OnOk result
        (string_bytes text.new ≡ string_bytes text.old ++ listed nozzle_text nozzles.now) }
{
    let [first, others @ ..] = nozzles else {
        return Ok(());
    };
    put_nozzle(text, first)?;
    for nozzle in others {
        text.push_str(", ")?;
        put_nozzle(text, nozzle)?;
    }
    Ok(())
}

/// Appends a nozzle with its reading.
fn put_nozzle(text: &mut String, nozzle: &NozzleEntry) -> Result<(), NoMemory>
    ensures { OnOk result
        (string_bytes text.new ≡ string_bytes text.old ++ nozzle_text nozzle.now) }
{
    let (product, reading) = (nozzle.product.get(), nozzle.reading.get());
    write!(text, "{{product = {product}, reading = {reading}}}")?;
    Ok(())
}
