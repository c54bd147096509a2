//! The report as text: a line for each figure.

ghost use Rattle.std.specs.Prelude.{◌≡◌, ◌++◌, length, string_bytes, IfOk, OnOk};
ghost use Rattle.day_report.specs.Text.{head_lines, metered_words, product_line, product_lines};
ghost use Rattle.day_report.specs.Text.{product_title, report_text, shares_line, sold_words};

use crate::takings::Takings;
use site_base::{NoMemory, ProductEntry, ProductView, SiteConfig, TillNo, Totals};
use std::alloc::Global;

/// Returns the report of these totals: the number of rows; the clears of all tills and their cents;
/// for each product, in configured order, its figures; and how many shares settled. The last figure
/// of a product is what tests drew, the adjusted millilitres. The totals have one member for each
/// product of the configuration.
pub fn report_as_text(
    alloc: Global,
    config: &SiteConfig,
    totals: &Totals,
    shares: u64,
) -> Result<String, NoMemory>
    requires { length totals.now.products ≡ length config.now.products }
    ensures { IfOk result (λ text. string_bytes text ≡ report_text config.now totals.now shares) }
{
    let mut text = String::new(alloc);
    put_head(&mut text, totals.rows, totals.tills.as_slice())?;
    put_products(&mut text, config.products(), totals.products.as_slice())?;
    put_shares(&mut text, shares)?;
    Ok(text)
}

/// Appends the rows, and what all tills cleared.
fn put_head(text: &mut String, rows: u64, tills: &[(TillNo, u64, u64)]) -> Result<(), NoMemory>
    ensures { OnOk result (string_bytes text.new
        ≡ string_bytes text.old ++ head_lines rows tills.now) }
{
    let Takings { clears, cents } = Takings::of(tills);
    write!(text, "rows {rows}\nclears {clears} cents {cents}\n")?;
    Ok(())
}

/// Appends a line for each product, in this order.
fn put_products(
    text: &mut String,
    products: &[ProductEntry],
    views: &[ProductView],
) -> Result<(), NoMemory>
    requires { length views.now ≡ length products.now }
    ensures { OnOk result (string_bytes text.new
        ≡ string_bytes text.old ++ product_lines products.now views.now) }
{
    for at in 0..products.len() {
        put_product(text, &products[at], &views[at])?;
    }
    Ok(())
}

/// Appends the line of a product.
fn put_product(
    text: &mut String,
    product: &ProductEntry,
    view: &ProductView,
) -> Result<(), NoMemory>
    ensures { OnOk result (string_bytes text.new
        ≡ string_bytes text.old ++ product_line product.now view.now) }
{
    put_title(text, product)?;
    put_metered(text, view)?;
    put_sold(text, view)
}

/// Appends which product a line is of.
fn put_title(text: &mut String, product: &ProductEntry) -> Result<(), NoMemory>
    ensures { OnOk result (string_bytes text.new
        ≡ string_bytes text.old ++ product_title product.now) }
{
    let number = product.number.get();
    let name = product.name.as_str();
    write!(text, "product {number} {name}")?;
    Ok(())
}

/// Appends what was metered, and what of it is in a fuelling under way.
fn put_metered(text: &mut String, view: &ProductView) -> Result<(), NoMemory>
    ensures { OnOk result (string_bytes text.new
        ≡ string_bytes text.old ++ metered_words view.now) }
{
    write!(text, " metered {} running {}", view.metered, view.running)?;
    Ok(())
}

/// Appends what was sold, by its status, and what tests drew; and ends the line.
fn put_sold(text: &mut String, view: &ProductView) -> Result<(), NoMemory>
    ensures { OnOk result (string_bytes text.new ≡ string_bytes text.old ++ sold_words view.now) }
{
    let (payable, locked) = (view.payable, view.locked);
    let (cleared, adjusted) = (view.cleared, view.adjusted);
    write!(
        text,
        " payable {payable} locked {locked} cleared {cleared} adjusted {adjusted}\n"
    )?;
    Ok(())
}

/// Appends how many shares settled.
fn put_shares(text: &mut String, shares: u64) -> Result<(), NoMemory>
    ensures { OnOk result (string_bytes text.new ≡ string_bytes text.old ++ shares_line shares) }
{
    write!(text, "shares {shares} settled\n")?;
    Ok(())
}
