//! The report of a book.

ghost use Rattle.std.specs.Prelude.{◌≡◌, IfOk, OnOk, length, string_bytes};
ghost use Rattle.std.specs.Io.KnownBytes.{Appends};
ghost use Rattle.devices.specs.Counted.{device_of};
ghost use Rattle.devices.specs.Devices.{AppendsFront};
ghost use Rattle.day_base.specs.declared.plan.ReportForm.{ReportForm};
ghost use Rattle.day_base.specs.Texts.{kept_totals, report_in};

use crate::fault::DayFault;
use crate::plan::ReportForm;
use day_report::{report_as_json, report_as_text};
use devices::{Counted, write_whole};
use site_base::{NoMemory, Totals};
use site_book::SiteBook;
use std::alloc::Global;
use std::io::Write;

/// Writes the report of a book. However it ends, a prefix of the report is written.
pub fn put_book_report<W: Write>(
    alloc: Global,
    book: &SiteBook,
    form: ReportForm,
    writer: &mut Counted<W>,
    turns: &mut u64,
) -> Result<(), DayFault>
    ensures written { OnOk result (Appends (W.contents (device_of writer.old))
        (W.contents (device_of writer.new)) (report_in form book.now)) }
    ensures front { AppendsFront (W.contents (device_of writer.old))
        (W.contents (device_of writer.new)) (report_in form book.now) }
{
    let text = report_text(alloc, book, form)?;
    write_whole(writer, text.as_str().as_bytes(), turns)?;
    Ok(())
}

/// The report of a station's book.
fn report_text(alloc: Global, book: &SiteBook, form: ReportForm) -> Result<String, NoMemory>
    ensures { IfOk result (λ text. string_bytes text ≡ report_in form book.now) }
{
    match form {
        ReportForm::Text => {
            let totals = kept_totals(alloc, book)?;
            report_as_text(alloc, book.config(), &totals, 0)
        }
        ReportForm::Json => json_report_of_book(alloc, book),
    }
}

/// Returns the report of a station's book as JSON: one object, on one line.
pub fn json_report_of_book(alloc: Global, book: &SiteBook) -> Result<String, NoMemory>
    ensures { IfOk result (λ text. string_bytes text ≡ report_in ReportForm.Json book.now) }
{
    let totals = kept_totals(alloc, book)?;
    report_as_json(alloc, book.config().products(), &totals, 0)
}

/// The figures of a station's book, as its site keeps them: its rows may be forgotten. Those of
/// reads aren't counted.
fn kept_totals(alloc: Global, book: &SiteBook) -> Result<Totals, NoMemory>
    ensures totals { IfOk result (λ totals. totals ≡ kept_totals book.now) }
    ensures products { IfOk result (λ totals.
        length totals.products ≡ length book.now.config.products) }
{
    let mut totals = book.totals(alloc)?;
    totals.rows = book.kept_len();
    Ok(totals)
}
