//! What a request asks for.
ghost use Rattle.std.specs.Prelude.{◌≡◌};
ghost use Rattle.status_answers.specs.Pages.{asked_for, page_at, reads};

use crate::page::Page;

/// What a request asks for.
#[derive(Clone, Copy, Debug, PartialEq, Eq, Drop)]
pub enum Asked {
    Page(Page),
    /// No page is there: 404 (RFC 9110, 15.5.5).
    NoPage,
    /// The page can't be asked for by this method: 405 (RFC 9110, 15.5.6).
    OtherMethod,
}

impl Asked {
    /// Returns what a request of this method asks for at a path, which has no query. Methods and paths are compared byte by byte.
    pub fn by(method: &str, path: &str) -> Asked
        ensures { result ≡ asked_for method.now path.now }
    {
        match page_at(path) {
            None => Asked::NoPage,
            Some(page) if reads(method) => Asked::Page(page),
            Some(_) => Asked::OtherMethod,
        }
    }
}

/// Returns the page at a path.
fn page_at(path: &str) -> Option<Page>
    ensures { result ≡ page_at path.now }
{
    match path {
        "/" => Some(Page::Overview),
        "/metrics" => Some(Page::Metrics),
        "/status.json" => Some(Page::Figures),
        "/health" => Some(Page::Health),
        _ => None,
    }
}

/// Returns whether a method reads: GET and HEAD do (RFC 9110, 9.3).
fn reads(method: &str) -> bool
    ensures { result ≡ reads method.now }
{
    method == "GET" || method == "HEAD"
}
