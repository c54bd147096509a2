//! What the page answers.

ghost use Rattle.std.specs.Prelude.{◌≡◌, Option, Some, [], IfSome, OnOk, option_copied};
ghost use Rattle.http_server.specs.Response.{IsBlank, IsResponse};
ghost use Rattle.site_book.specs.Book.{is_full};
ghost use Rattle.site_json.specs.Transactions.{unpaid_data};
ghost use Rattle.site_page.specs.declared.html.TheConstants.{PAGE};
ghost use Rattle.shift_table.specs.declared.form.Form.TheVariants.{Json};
ghost use Rattle.shift_table.specs.ShiftTable.{shifts_from};
ghost use Rattle.site_page.specs.PageAnswers.{AreShifts, IsHealthAnswer, IsJson, IsMetricsAnswer};
ghost use Rattle.site_page.specs.PageAnswers.{IsNothing, IsPageAnswer, IsPathAnswer, IsSealAnswer};
ghost use Rattle.site_page.specs.PageAnswers.{IsShiftsAnswer, IsUnpaidAnswer, methods_fields};
ghost use Rattle.site_page.specs.PageAnswers.{page_fields, shifts_fields, shown_data};

use crate::html::PAGE;
use crate::policy::POLICY;
use crate::query::{Asked, read_first, read_query};
use crate::texts::{put_json, put_line, put_lines, put_metrics_text};
use bytes::Bytes;
use http::{HeaderValue, Request, StatusCode, header};
use http_server::{Response, Service};
use row_tally::{RowTally, TimesReader};
use shift_table::{Form, shifts_from};
use site_base::{FpNo, NoMemory, ShiftNo};
use site_book::{NamedSale, SiteBook};
use site_gaps::station_text;
use site_json::{PeerSession, unpaid_text};
use site_metrics::{StationCounts, metrics_text};
use stamps::Stamp;
use std::alloc::{AllocError, Global};
use std::marker::Model;

/// What requests are answered from. It is lent for a round, and makes only what is asked for.
#[derive(Drop)]
pub struct Page<'a> {
    alloc: Global,
    book: &'a SiteBook,
    unpaid: &'a [NamedSale],
    counts: StationCounts,
    sessions: &'a [PeerSession],
    at: Option<Stamp>,
    opened: Option<Stamp>,
    seal: Option<&'a str>,
    tally: Option<&'a RowTally>,
    name: Option<&'a str>,
}

impl<'a> Model for Page<'a> {
    ghost use Rattle.std.specs.Prelude.{option_copied};
    ghost use Rattle.site_page.specs.PageAnswers.{Shown};

    ghost Value = { Shown };

    ghost view = { λ p. record {
      book = p.book.now;
      unpaid = p.unpaid.now;
      counts = p.counts;
      sessions = p.sessions.now;
      at = p.at;
      opened = p.opened;
      seal = option_copied p.seal;
      tally = option_copied p.tally;
      name = option_copied p.name;
    } };
}

impl<'a> Page<'a> {
    /// Returns the page of a book's site. `at` is the current time, if it is known. `unpaid` are
    /// the transactions that the caller has found unpaid, `counts` is what the station counts. Of
    /// the history, `opened` is the time of the open shift's first row, `seal` the last seal,
    /// `tally` the tally of its rows, if there is one. `name` is the site's name, if it has one.
    pub fn new(
        alloc: Global,
        book: &'a SiteBook,
        unpaid: &'a [NamedSale],
        counts: StationCounts,
        sessions: &'a [PeerSession],
        at: Option<Stamp>,
        opened: Option<Stamp>,
        seal: Option<&'a str>,
        tally: Option<&'a RowTally>,
        name: Option<&'a str>,
    ) -> Page<'a>
        ensures book { result.book ≡ book.now }
        ensures unpaid { result.unpaid ≡ unpaid.now }
        ensures counts { result.counts ≡ counts }
        ensures sessions { result.sessions ≡ sessions.now }
        ensures at { result.at ≡ at }
        ensures opened { result.opened ≡ opened }
        ensures seal { result.seal ≡ option_copied seal.entry }
        ensures tally { result.tally ≡ option_copied tally.entry }
        ensures name { result.name ≡ option_copied name.entry }
    {
        Page {
            alloc,
            book,
            unpaid,
            counts,
            sessions,
            at,
            opened,
            seal,
            tally,
            name,
        }
    }

    /// The same page once more.
    pub(crate) fn share(&self) -> Page<'a>
        ensures { result ≡ self.now }
    {
        Page {
            alloc: self.alloc,
            book: self.book,
            unpaid: self.unpaid,
            counts: self.counts,
            sessions: self.sessions,
            at: self.at,
            opened: self.opened,
            seal: self.seal,
            tally: self.tally,
            name: self.name,
        }
    }

    /// What this path, with this query, is answered.
    #[tactic(auto, using(crate::proofs::Answering::by_path))]
    fn put_path(
        &self,
        path: &str,
        query: Option<&str>,
        response: &mut Response,
    ) -> Result<(), AllocError>
        requires { IsBlank response.old }
        ensures { OnOk result
            (IsPathAnswer self.now path.now (option_copied query.entry) response.new) }
    {
        match path {
            "/" => put_page(response),
            "/site.json" => self.put_site(response),
            "/unpaid" => self.put_unpaid(query, response),
            "/metrics" => self.put_metrics(response),
            "/healthz" => self.put_health(response),
            "/seal" => self.put_seal(response),
            "/shifts" => self.put_shifts(query, response),
            _ => refuse_path(response),
        }
    }

    /// The site.
    fn put_site(&self, response: &mut Response) -> Result<(), AllocError>
        requires { IsBlank response.old }
        ensures { OnOk result (IsJson (shown_data self.now) response.new) }
    {
        match station_text(
            self.alloc,
            self.book,
            self.unpaid,
            self.counts.connections,
            self.sessions,
            self.at,
            self.opened,
            self.seal,
            self.tally,
            self.name,
        ) {
            Ok(text) => put_json(text, response),
            Err(_) => Err(AllocError),
        }
    }

    /// The unpaid transactions that this query asks for.
    #[tactic(auto, using(crate::proofs::Answering::asked))]
    fn put_unpaid(&self, query: Option<&str>, response: &mut Response) -> Result<(), AllocError>
        requires { IsBlank response.old }
        ensures { OnOk result
            (IsUnpaidAnswer self.now.unpaid (option_copied query.entry) response.new) }
    {
        match read_query(query) {
            Asked::All => self.put_unpaid_of(None, response),
            Asked::Point(p) => self.put_unpaid_of(Some(p), response),
            Asked::Unknown => {
                let line = Bytes::from_static(b"ask for /unpaid or /unpaid?point=P\n");
                put_line(StatusCode::BAD_REQUEST, line, response)
            }
        }
    }

    /// The unpaid transactions of this point, or all.
    fn put_unpaid_of(&self, point: Option<FpNo>, response: &mut Response) -> Result<(), AllocError>
        requires { IsBlank response.old }
        ensures { OnOk result (IsJson (unpaid_data point self.now.unpaid) response.new) }
    {
        match unpaid_text(self.alloc, self.unpaid, point) {
            Ok(text) => put_json(text, response),
            Err(_) => Err(AllocError),
        }
    }

    /// The shifts from the one on that this query asks for.
    #[tactic(auto, using(crate::proofs::Answering::asked))]
    fn put_shifts(&self, query: Option<&str>, response: &mut Response) -> Result<(), AllocError>
        requires { IsBlank response.old }
        ensures { OnOk result
            (IsShiftsAnswer self.now (option_copied query.entry) response.new) }
    {
        match read_first(query) {
            Some(first) => self.put_shifts_from(first, response),
            None => {
                let line = Bytes::from_static(b"ask for /shifts or /shifts?from=N\n");
                put_line(StatusCode::BAD_REQUEST, line, response)
            }
        }
    }

    /// The shifts from this one on.
    fn put_shifts_from(&self, first: ShiftNo, response: &mut Response) -> Result<(), AllocError>
        requires { IsBlank response.old }
        ensures { OnOk result (AreShifts first self.now response.new) }
    {
        match self.tally {
            Some(tally) => {
                put_shift_lines(
                    self.alloc,
                    self.book,
                    tally.moments().shifts(),
                    first,
                    response,
                )
            }
            None => {
                let times = TimesReader::new(self.alloc);
                put_shift_lines(self.alloc, self.book, &times, first, response)
            }
        }
    }

    /// The figures, for programs that watch the site.
    fn put_metrics(&self, response: &mut Response) -> Result<(), AllocError>
        requires { IsBlank response.old }
        ensures { OnOk result (IsMetricsAnswer self.now response.new) }
    {
        let text = metrics_text(
            self.alloc,
            self.book,
            self.unpaid,
            &self.counts,
            self.sessions,
            self.tally,
        )?;
        put_metrics_text(text, response)
    }

    /// Whether rows can be added.
    fn put_health(&self, response: &mut Response) -> Result<(), AllocError>
        requires { IsBlank response.old }
        ensures { OnOk result (IsHealthAnswer (is_full self.now.book) response.new) }
    {
        if is_full(self.book) {
            let line = Bytes::from_static(b"the book is full\n");
            put_line(StatusCode::SERVICE_UNAVAILABLE, line, response)
        } else {
            put_line(StatusCode::OK, Bytes::from_static(b"ok\n"), response)
        }
    }

    /// The line of the last seal, if there is a history.
    fn put_seal(&self, response: &mut Response) -> Result<(), AllocError>
        requires { IsBlank response.old }
        ensures { OnOk result (IsSealAnswer self.now.seal response.new) }
    {
        let Some(seal) = self.seal else {
            return refuse_path(response);
        };
        let mut line = String::from_str(self.alloc, seal)?;
        line.push('\n')?;
        put_line(StatusCode::OK, Bytes::from_string(line)?, response)
    }
}

impl<'a> Service for Page<'a> {
    ghost answers = { λ old request response new.
        IsPageAnswer old request response × (new ≡ old) };

    /// `GET` and `HEAD` of `/` are answered with the page, of `/site.json` with the site, of
    /// `/unpaid` with the unpaid transactions, of `/metrics` with the figures, of `/healthz` with
    /// whether rows can be added, of `/seal` with the last seal, if there is a history, of
    /// `/shifts` with the shifts; of any other path it is 404, and for any other method 405.
    fn call(
        &mut self,
        request: &Request<Bytes>,
        response: &mut Response,
    ) -> Result<(), AllocError> {
        if request.method().as_str() != "GET" && request.method().as_str() != "HEAD" {
            return refuse_method(response);
        }
        self.put_path(request.uri().path(), request.uri().query(), response)
    }
}

/// Has a book no room for one more row?
fn is_full(book: &SiteBook) -> bool
    ensures { result ≡ is_full book.now }
{
    book.rows_in_memory() >= book.config().rows() as usize
}

/// The page.
fn put_page(response: &mut Response) -> Result<(), AllocError>
    requires { IsBlank response.old }
    ensures { OnOk result (IsResponse 200 page_fields PAGE.now response.new) }
{
    response.add_header(
        header::CONTENT_TYPE,
        HeaderValue::from_static("text/html; charset=utf-8"),
    )?;
    response.add_header(
        header::CONTENT_SECURITY_POLICY,
        HeaderValue::from_static(POLICY),
    )?;
    response.add_header(header::CACHE_CONTROL, HeaderValue::from_static("no-store"))?;
    response.add_header(
        header::X_CONTENT_TYPE_OPTIONS,
        HeaderValue::from_static("nosniff"),
    )?;
    response.body.push(Bytes::from_static(PAGE.as_bytes()))
}

/// The shifts of a book from this one on, which were opened and closed at these times.
fn put_shift_lines(
    alloc: Global,
    book: &SiteBook,
    times: &TimesReader,
    first: ShiftNo,
    response: &mut Response,
) -> Result<(), AllocError>
    requires { IsBlank response.old }
    ensures { OnOk result (IsResponse 200 shifts_fields
        (shifts_from first Json book.now times.now) response.new) }
{
    match shifts_from(alloc, book, times, Form::Json, first) {
        Ok(text) => put_lines(text, response),
        Err(NoMemory) => Err(AllocError),
    }
}

/// That there is no such path.
fn refuse_path(response: &mut Response) -> Result<(), AllocError>
    requires { IsBlank response.old }
    ensures { OnOk result (IsNothing response.new) }
{
    response.status = StatusCode::NOT_FOUND;
    Ok(())
}

/// That only `GET` and `HEAD` are answered.
fn refuse_method(response: &mut Response) -> Result<(), AllocError>
    requires { IsBlank response.old }
    ensures { OnOk result (IsResponse 405 methods_fields [] response.new) }
{
    response.status = StatusCode::METHOD_NOT_ALLOWED;
    response.add_header(header::ALLOW, HeaderValue::from_static("GET, HEAD"))
}
