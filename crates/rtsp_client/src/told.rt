//! What a program says to a client.
ghost use Rattle.std.specs.Prelude.{◌≡◌, ◌⊎◌};
ghost use Rattle.rtsp_client.specs.Runs.{Goes, idles, is_redirected};
ghost use Rattle.rtsp_client.specs.Told.{after_answer, after_bad_description, after_description, after_end, after_redirect};

use crate::awaits::Awaits;
use crate::client::Client;
use crate::connection::Connection;
use crate::end::End;
use crate::progress::Progress;
use crate::step::Step;
use transport_header::MOST_TRACKS;

impl Client {
    /// The description has so many tracks that can be used, of which at most the first 16 are asked for. Without one the client ends. Does
    /// nothing if no description is waited for.
    pub fn described(&mut self, tracks: usize)
        ensures { self.new ≡ after_description tracks self.old }
    {
        if self.end.is_some()
            || self.awaits != Awaits::Description
            || self.progress.step() != Step::Describe
        {
            return;
        }
        if tracks == 0 {
            self.end = Some(End::NoUsableTrack);
            return;
        }
        self.awaits = Awaits::Nothing;
        self.progress.described(tracks.min(MOST_TRACKS));
    }

    /// The description can't be read, which ends the client. Does nothing if none is waited for.
    pub fn description_is_bad(&mut self)
        ensures { self.new ≡ after_bad_description self.old }
    {
        if self.end.is_none() && self.awaits == Awaits::Description {
            self.end = Some(End::DescriptionUnusable);
        }
    }

    /// There is a new connection to the source, to the place that the reply to DESCRIBE named (RFC 2326, 11.3): numbers begin anew on it,
    /// with OPTIONS. Does nothing if none is waited for.
    pub fn redirected(&mut self)
        ensures new { self.new ≡ after_redirect self.old }
        ensures goes { Goes is_redirected self.old self.new ⊎ Goes idles self.old self.new }
    {
        if self.end.is_some() || self.awaits != Awaits::Connection {
            return;
        }
        self.awaits = Awaits::Nothing;
        self.progress = Progress::new();
        self.source = Connection::new();
    }

    /// There is a password for the challenge, and the request is sent once more; or there is none, which ends the client. Does nothing if
    /// nothing was challenged.
    pub fn answers_challenge(&mut self, has_password: bool)
        ensures { self.new ≡ after_answer has_password self.old }
    {
        if self.end.is_some() {
            return;
        }
        let Awaits::Password { asked } = self.awaits else {
            return;
        };
        if has_password {
            self.awaits = Awaits::Again { asked };
        } else {
            self.end = Some(End::PasswordRefused);
        }
    }

    /// The client ends for this reason, unless it has ended already.
    pub fn ended(&mut self, end: End)
        ensures { self.new ≡ after_end end self.old }
    {
        if self.end.is_none() {
            self.end = Some(end);
        }
    }
}
