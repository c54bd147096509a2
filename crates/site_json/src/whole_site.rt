//! The site as JSON.

ghost use Rattle.std.specs.Prelude.{◌≡◌, IfOk, OnOk, option_copied, string_bytes};
ghost use Rattle.serde_json.specs.Data.{object, put};
ghost use Rattle.serde_json.specs.View.{members_view, view};
ghost use Rattle.serde_json.specs.Written.{compact_text};
ghost use Rattle.site_book.specs.Book.{site_of_book};
ghost use Rattle.written_site.specs.ShiftFigures.{product_totals};
ghost use Rattle.day_report.specs.Figures.{listed};
ghost use Rattle.site_json.specs.Points.{points_data};
ghost use Rattle.day_report.specs.Products.{products_data};
ghost use Rattle.site_json.specs.Sessions.{sessions_data};
ghost use Rattle.site_json.specs.ShiftProducts.{open_products};
ghost use Rattle.site_json.specs.SiteData.{figure_members, members_of, site_data, with_dues};
ghost use Rattle.site_json.specs.Tills.{tills_data};
ghost use Rattle.site_json.specs.Transactions.{transactions_data};

use crate::figures::{sum_value, text_if, time_if};
use crate::points::point_values;
use crate::sessions::{PeerSession, session_values};
use crate::shift_products::open_product_values;
use crate::tills::till_values;
use crate::transactions::{cents_of, dues_of, transaction_values};
use day_report::product_values;
use serde_json::{Map, Value, json};
use site_base::NoMemory;
use site_book::{NamedSale, SiteBook};
use stamps::Stamp;
use std::alloc::{AllocError, Global};

/// Returns the site of a book: its points, its products with the figures of a read, its tills with
/// their clears in the open shift, that shift and its products, and the number of rows. It also has
/// the time `at`, if it is known; the transactions that the caller has found unpaid, with what is
/// due of them; the number of connections; and these sessions. Of the history, if there is one, it
/// has the time of the open shift's first row and the last seal.
pub fn site_value(
    alloc: Global,
    book: &SiteBook,
    unpaid: &[NamedSale],
    connections: usize,
    sessions: &[PeerSession],
    at: Option<Stamp>,
    opened: Option<Stamp>,
    seal: Option<&str>,
) -> Result<Value, NoMemory>
    ensures { IfOk result (λ value. view value
        ≡ site_data book.now unpaid.now connections sessions.now at opened
        (option_copied seal.entry)) }
{
    let at = time_if(alloc, &at)?;
    let opened = time_if(alloc, &opened)?;
    let seal = text_if(alloc, seal)?;
    let points = points_value(alloc, book, sessions)?;
    let sessions = sessions_value(alloc, sessions)?;
    let products = products_value(alloc, book)?;
    let shift = open_products_value(alloc, book)?;
    let tills = tills_value(alloc, book)?;
    let transactions = transactions_value(alloc, unpaid)?;
    let due = sum_value(dues_of(unpaid));
    let unpaid = sum_value(cents_of(unpaid));
    let site = figures_value(
        alloc,
        book,
        at,
        connections,
        opened,
        seal,
        points,
        products,
        sessions,
        tills,
        transactions,
        unpaid,
    )?;
    Ok(with_dues(alloc, site, shift, due)?)
}

/// Returns the same as a text.
pub fn site_text(
    alloc: Global,
    book: &SiteBook,
    unpaid: &[NamedSale],
    connections: usize,
    sessions: &[PeerSession],
    at: Option<Stamp>,
    opened: Option<Stamp>,
    seal: Option<&str>,
) -> Result<String, NoMemory>
    ensures { IfOk result (λ text. string_bytes text ≡ compact_text
        (site_data book.now unpaid.now connections sessions.now at opened
        (option_copied seal.entry))) }
{
    let site = site_value(alloc, book, unpaid, connections, sessions, at, opened, seal)?;
    Ok(site.to_string(alloc)?)
}

/// The book's figures at this time, with so many connections, this time of the open shift's first
/// row, this last seal, these lists of what stands at its site, and these cents of what is unpaid.
fn figures_value(
    alloc: Global,
    book: &SiteBook,
    at: Value,
    connections: usize,
    opened: Value,
    seal: Value,
    points: Value,
    products: Value,
    sessions: Value,
    tills: Value,
    transactions: Value,
    unpaid: Value,
) -> Result<Value, AllocError>
    ensures { IfOk result (λ value. view value ≡ object (figure_members book.now (view at)
        connections (view opened) (view seal) (view points) (view products) (view sessions)
        (view tills) (view transactions) (view unpaid))) }
{
    let rows = book.kept_len();
    let shift = book.open_shift().get();
    json!(in alloc; {
        "at": at,
        "connections": connections,
        "opened": opened,
        "points": points,
        "products": products,
        "rows": rows,
        "seal": seal,
        "sessions": sessions,
        "shift": shift,
        "tills": tills,
        "transactions": transactions,
        "unpaid cents": unpaid
    })
}

/// A site, which is an object, with the products of its open shift, and what is due of what is
/// unpaid, among its members.
fn with_dues(
    alloc: Global,
    site: Value,
    shift_products: Value,
    due: Value,
) -> Result<Value, AllocError>
    requires { view site ≡ object (members_of (view site)) }
    ensures { IfOk result (λ value.
        view value ≡ with_dues (view shift_products) (view due) (view site)) }
{
    let Value::Object(mut members) = site else {
        unreachable!();
    };
    put_member(alloc, &mut members, "shift products", shift_products)?;
    put_member(alloc, &mut members, "due cents", due)?;
    Ok(Value::Object(members))
}

/// Puts a member among the members of an object, at the place of its name.
pub fn put_member(
    alloc: Global,
    members: &mut Map<String, Value>,
    name: &str,
    value: Value,
) -> Result<(), AllocError>
    ensures { OnOk result (members_view members.new.entries
        ≡ put name.now (view value) (members_view members.old.entries)) }
{
    serde_json::put(members, alloc, name, value)
}

/// The configured points, in their order, beside these sessions.
fn points_value(alloc: Global, book: &SiteBook, sessions: &[PeerSession]) -> Result<Value, NoMemory>
    ensures { IfOk result (λ value. view value
        ≡ listed (points_data (site_of_book book.now) sessions.now book.now.config.points)) }
{
    Ok(Value::Array(point_values(alloc, book, sessions)?))
}

/// These sessions.
fn sessions_value(alloc: Global, sessions: &[PeerSession]) -> Result<Value, NoMemory>
    ensures { IfOk result (λ value. view value ≡ listed (sessions_data sessions.now)) }
{
    Ok(Value::Array(session_values(alloc, sessions)?))
}

/// The products of the open shift, in configured order.
fn open_products_value(alloc: Global, book: &SiteBook) -> Result<Value, NoMemory>
    ensures { IfOk result (λ value. view value
        ≡ listed (open_products (site_of_book book.now) book.now.config.products)) }
{
    Ok(Value::Array(open_product_values(alloc, book)?))
}

/// The tills that a site may have.
fn tills_value(alloc: Global, book: &SiteBook) -> Result<Value, NoMemory>
    ensures { IfOk result (λ value. view value ≡ listed (tills_data (site_of_book book.now))) }
{
    Ok(Value::Array(till_values(alloc, book)?))
}

/// These transactions.
fn transactions_value(alloc: Global, unpaid: &[NamedSale]) -> Result<Value, NoMemory>
    ensures { IfOk result (λ value. view value ≡ listed (transactions_data unpaid.now)) }
{
    Ok(Value::Array(transaction_values(alloc, unpaid)?))
}

/// The products with the figures of a read, in configured order.
fn products_value(alloc: Global, book: &SiteBook) -> Result<Value, NoMemory>
    ensures { IfOk result (λ value. view value ≡ listed
        (products_data book.now.config.products (product_totals (site_of_book book.now)))) }
{
    let totals = book.totals(alloc)?;
    let products = book.config().products();
    Ok(Value::Array(product_values(alloc, products, totals.products.as_slice())?))
}
