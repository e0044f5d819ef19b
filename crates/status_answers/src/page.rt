//! The pages of a status listener.
ghost use Rattle.std.specs.Prelude.{◌≡◌, codes, true, IsTrue};
ghost use Rattle.http_header.specs.FieldValue.{is_visible_text};
ghost use Rattle.status_answers.specs.Pages.{content_type_of};
ghost use Rattle.status_answers.specs.Policies.{loads_nothing};

use bytes::Bytes;
use std::alloc::AllocError;

/// A page of a status listener.
#[derive(Clone, Copy, Debug, PartialEq, Eq, Drop)]
pub enum Page {
    /// `/`: for people.
    Overview,
    /// `/metrics`: for Prometheus, in its text format 0.0.4.
    Metrics,
    /// `/status.json`: for scripts, and for the page of `/`.
    Figures,
    /// `/health`: whether the threads of the server that serve many go on.
    Health,
}

/// The text of a page at one moment.
#[derive(Drop)]
pub struct Text {
    /// Whether the server says that it works: if not, the answer is 503.
    pub is_well: bool,
    pub body: Bytes,
    /// What a browser may load and run for it, and show it in: the value of `Content-Security-Policy` (CSP Level 3, 3.1).
    pub policy: &'static str,
    ghost is_a_value: { IsTrue (is_visible_text policy.now) },
}

/// The policy of a text for which a browser loads and runs nothing, and which no other page shows in a frame.
pub const LOADS_NOTHING: &str = "default-src 'none'; frame-ancestors 'none'";

impl Text {
    /// Returns the text of a server that works, for which a browser loads nothing.
    pub fn plain(body: Bytes) -> Text
        ensures is_well { result.is_well ≡ true }
        ensures body { result.body ≡ body }
        ensures policy { result.policy.now ≡ loads_nothing }
    {
        Text::with_policy(body, LOADS_NOTHING)
    }

    /// Returns the text of a server that works, with its own policy, which is visible ASCII and blanks.
    pub fn with_policy(body: Bytes, policy: &'static str) -> Text
        requires { IsTrue (is_visible_text policy.now) }
        ensures is_well { result.is_well ≡ true }
        ensures body { result.body ≡ body }
        ensures policy { result.policy.now ≡ policy.now }
    {
        Text {
            is_well: true,
            body,
            policy,
        }
    }
}

/// What has the text of each page.
pub trait Pages {
    ghost use Rattle.std.specs.Prelude.{IfOk};
    ghost use Rattle.status_answers.specs.declared.page.Page.{Page};
    ghost use Rattle.status_answers.specs.declared.page.Text.{Text};

    // The page may have this text.
    ghost shows: { Self → Page → Text → Type 0 };

    /// Returns the text of a page now. The only error is out of memory, which ends the connection.
    fn text(&self, page: Page) -> Result<Text, AllocError>
        ensures { IfOk result (λ text. shows self.now page text) };
}

impl Page {
    /// Returns its media type (RFC 9110, 8.3).
    pub fn content_type(self) -> &'static str
        ensures { result.now ≡ content_type_of self }
    {
        match self {
            Page::Overview => "text/html; charset=utf-8",
            Page::Metrics => "text/plain; version=0.0.4; charset=utf-8",
            Page::Figures => "application/json",
            Page::Health => "text/plain; charset=utf-8",
        }
    }
}
