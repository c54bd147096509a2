//! Answers that are texts: JSON, or one line. Browsers don't keep them, and take them only for what
//! their type says.

ghost use Rattle.std.specs.Prelude.{◌≡◌, [], OnOk, string_bytes};
ghost use Rattle.http_server.specs.Response.{IsBlank, IsResponse, fields_of};
ghost use Rattle.site_page.specs.PageAnswers.{IsLine, metrics_fields, shifts_fields, site_fields};
ghost use Rattle.site_page.specs.PageAnswers.{text_fields};

use bytes::Bytes;
use http::{HeaderValue, StatusCode, header};
use http_server::Response;
use std::alloc::AllocError;

/// A text of JSON.
pub(crate) fn put_json(text: String, response: &mut Response) -> Result<(), AllocError>
    requires { IsBlank response.old }
    ensures { OnOk result (IsResponse 200 site_fields (string_bytes text) response.new) }
{
    put_fields(HeaderValue::from_static("application/json"), response)?;
    response.body.push(Bytes::from_string(text)?)
}

/// Lines of JSON.
pub(crate) fn put_lines(text: String, response: &mut Response) -> Result<(), AllocError>
    requires { IsBlank response.old }
    ensures { OnOk result (IsResponse 200 shifts_fields (string_bytes text) response.new) }
{
    put_fields(HeaderValue::from_static("application/x-ndjson"), response)?;
    response.body.push(Bytes::from_string(text)?)
}

/// A text of OpenMetrics.
pub(crate) fn put_metrics_text(text: String, response: &mut Response) -> Result<(), AllocError>
    requires { IsBlank response.old }
    ensures { OnOk result (IsResponse 200 metrics_fields (string_bytes text) response.new) }
{
    let kind = "application/openmetrics-text; version=1.0.0; charset=utf-8";
    put_fields(HeaderValue::from_static(kind), response)?;
    response.body.push(Bytes::from_string(text)?)
}

/// A line of text, with its line feed, under this status.
pub(crate) fn put_line(
    status: StatusCode,
    line: Bytes,
    response: &mut Response,
) -> Result<(), AllocError>
    requires { IsBlank response.old }
    ensures { OnOk result (IsLine status line response.new) }
{
    response.status = status;
    put_fields(
        HeaderValue::from_static("text/plain; charset=utf-8"),
        response,
    )?;
    response.body.push(line)
}

/// The fields of a text of this type.
fn put_fields(kind: HeaderValue, response: &mut Response) -> Result<(), AllocError>
    requires { fields_of response.old ≡ [] }
    ensures fields { OnOk result (fields_of response.new ≡ text_fields kind.bytes) }
    ensures status { response.new.status ≡ response.old.status }
    ensures body { response.new.body ≡ response.old.body }
{
    response.add_header(header::CONTENT_TYPE, kind)?;
    response.add_header(header::CACHE_CONTROL, HeaderValue::from_static("no-store"))?;
    response.add_header(
        header::X_CONTENT_TYPE_OPTIONS,
        HeaderValue::from_static("nosniff"),
    )
}
