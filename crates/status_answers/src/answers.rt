//! The answers to requests.
ghost use Rattle.std.specs.Prelude.{◌≡◌, ◌≤◌, ◌++◌, ◌∷◌, [], IsTrue, OnOk, IfOk, IfSome, IfNone};
ghost use Rattle.http_header.specs.FieldValue.{is_visible_text};
ghost use Rattle.http_server.specs.Response.{fields_of};
ghost use Rattle.status_answers.specs.Answers.{AddsDated, IsDateAt, plain, status_of, typed, with_common};

use crate::asked::Asked;
use crate::page::{LOADS_NOTHING, Page, Pages};
use bytes::{BufMut, Bytes};
use http::{HeaderValue, Request, StatusCode, header};
use http_server::{Response, Service};
use httpdate::HttpDate;
use std::alloc::{AllocError, Global};

/// The answers of a status listener at one moment.
pub struct Answers<P> {
    pub alloc: Global,
    pub pages: P,
    /// The moment, in seconds since the beginning of 1970.
    pub moment: u64,
}

impl<P: Drop> Drop for Answers<P> {
    fn drop(self) {
        let Answers {
            alloc: _,
            pages: _,
            moment: _,
        } = self;
    }
}

impl<P: Pages> Service for Answers<P> {
    ghost use Rattle.status_answers.specs.Answers.{IsAnswer};

    ghost answers = { IsAnswer P.shows };

    fn call(
        &mut self,
        request: &Request<Bytes>,
        response: &mut Response,
    ) -> Result<(), AllocError> {
        match Asked::by(request.method().as_str(), request.uri().path()) {
            Asked::Page(page) => self.put_page(page, response),
            Asked::NoPage => {
                response.status = StatusCode::NOT_FOUND;
                put_plain(response, b"there is no such page\n")?;
                put_common(self.alloc, self.moment, response)
            }
            Asked::OtherMethod => {
                response.status = StatusCode::METHOD_NOT_ALLOWED;
                let methods = HeaderValue::from_static("GET, HEAD");
                response.add_header(header::ALLOW, methods)?;
                put_plain(response, b"a page is asked for by GET or HEAD\n")?;
                put_common(self.alloc, self.moment, response)
            }
        }
    }
}

impl<P: Pages> Answers<P> {
    ghost use Rattle.std.specs.Prelude.{OnOk};
    ghost use Rattle.http_server.specs.Response.{IsBlank};
    ghost use Rattle.status_answers.specs.declared.asked.Asked.TheVariants as asks;
    ghost use Rattle.status_answers.specs.Answers.{Answered};

    /// Puts a page's text into a blank response.
    fn put_page(&self, page: Page, response: &mut Response) -> Result<(), AllocError>
        requires { IsBlank response.old }
        ensures { OnOk result (Answered P.shows self.now (asks.Page page) response.new) }
    {
        let text = self.pages.text(page)?;
        put_typed(response, page.content_type(), text.policy)?;
        put_common(self.alloc, self.moment, response)?;
        response.status = status_of(text.is_well);
        response.body.push(text.body)
    }
}

/// Returns the status of a page that says that the server works, or that it doesn't.
fn status_of(is_well: bool) -> StatusCode
    ensures { result ≡ status_of is_well }
{
    if is_well {
        StatusCode::OK
    } else {
        StatusCode::SERVICE_UNAVAILABLE
    }
}

/// Puts a text that isn't a page into a response.
fn put_plain(response: &mut Response, text: &'static [u8]) -> Result<(), AllocError>
    ensures fields { OnOk result (fields_of response.new ≡ fields_of response.old ++ plain) }
    ensures body { OnOk result (response.new.body.items ≡ response.old.body.items ++ text.now) }
    ensures status { response.new.status ≡ response.old.status }
{
    put_typed(response, "text/plain; charset=utf-8", LOADS_NOTHING)?;
    response.body.push(Bytes::from_static(text))
}

/// Puts the type of a text into a response, and what a browser may load and run for it.
fn put_typed(
    response: &mut Response,
    kind: &'static str,
    policy: &'static str,
) -> Result<(), AllocError>
    requires kind { IsTrue (is_visible_text kind.now) }
    requires policy { IsTrue (is_visible_text policy.now) }
    ensures fields { OnOk result (fields_of response.new ≡ fields_of response.old ++ typed kind.now policy.now) }
    ensures body { response.new.body ≡ response.old.body }
    ensures status { response.new.status ≡ response.old.status }
{
    let kind = HeaderValue::from_static(kind);
    response.add_header(header::CONTENT_TYPE, kind)?;
    let policy = HeaderValue::from_static(policy);
    response.add_header(header::CONTENT_SECURITY_POLICY, policy)
}

/// Puts the fields of each answer behind its own, and the moment: so many seconds since the beginning of 1970.
fn put_common(alloc: Global, now: u64, response: &mut Response) -> Result<(), AllocError>
    ensures fields { OnOk result (AddsDated now (with_common (fields_of response.old)) (fields_of response.new)) }
    ensures body { response.new.body ≡ response.old.body }
    ensures status { response.new.status ≡ response.old.status }
{
    let no_store = HeaderValue::from_static("no-store");
    response.add_header(header::CACHE_CONTROL, no_store)?;
    let no_sniff = HeaderValue::from_static("nosniff");
    response.add_header(header::X_CONTENT_TYPE_OPTIONS, no_sniff)?;
    response.add_header(header::CONNECTION, HeaderValue::from_static("close"))?;
    put_date(alloc, now, response)
}

/// Puts the moment of an answer behind its other fields (RFC 9110, 6.6.1).
fn put_date(alloc: Global, now: u64, response: &mut Response) -> Result<(), AllocError>
    ensures fields { OnOk result (AddsDated now (fields_of response.old) (fields_of response.new)) }
    ensures body { response.new.body ≡ response.old.body }
    ensures status { response.new.status ≡ response.old.status }
{
    let Some(date) = date_at(alloc, now)? else {
        return Ok(());
    };
    response.add_header(header::DATE, date)
}

/// Returns the text of a moment. `None` after the year 9999.
fn date_at(alloc: Global, now: u64) -> Result<Option<HeaderValue>, AllocError>
    ensures within { IfOk result (λ date. IfSome date (IsDateAt now)) }
    ensures beyond { IfOk result (λ date. IfNone date (253402300800 ≤ now)) }
{
    let Ok(date) = HttpDate::from_unix_secs(now) else {
        return Ok(None);
    };
    match HeaderValue::from_bytes(alloc, &date.to_bytes()) {
        Ok(date) => Ok(Some(date)),
        Err(_) => Err(AllocError),
    }
}
