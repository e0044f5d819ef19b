//! A track that is set up at a side (RFC 2326, 10.4).
ghost use Rattle.std.specs.Prelude.{◌≡◌};
ghost use Rattle.rtsp_client.specs.Clients.{session_at};
ghost use Rattle.rtsp_client.specs.Connections.{open_fault};
ghost use Rattle.rtsp_client.specs.SettingUp.{SetsPair, SetsUp, opened_at};
ghost use Rattle.rtsp_client.specs.declared.step.Step.TheVariants.{Describe};

use crate::asked::Side;
use crate::client::Client;
use crate::end::End;
use crate::opened::{Opened, SessionFault};
use crate::reply_facts::ReplyFacts;
use crate::turn::Turn;
use transport_header::ChannelPair;

impl Client {
    /// SETUP of a track has succeeded at a side.
    pub(crate) fn sets_up(&mut self, side: Side, reply: ReplyFacts, now: u64) -> Turn
        requires { self.old.place.step ≡ Describe → ⊥ }
        ensures { SetsUp side reply now self.old self.new result }
    {
        let ReplyFacts {
            number: _,
            status: _,
            channels,
            session,
            has_get_parameter: _,
        } = reply;
        if let Some(fault) = self.open(side, session, now) {
            return self.ends(End::Session { side, fault });
        }
        match channels.pair(self.asked_pair()) {
            Ok(pair) => self.sets_pair(side, pair),
            Err(fault) => self.ends(End::Channels { side, fault }),
        }
    }

    /// Opens a side's session, unless it is open. Returns why it isn't open then.
    fn open(
        &mut self,
        side: Side,
        session: Result<Opened, SessionFault>,
        now: u64,
    ) -> Option<SessionFault>
        ensures fault { result ≡ open_fault (session_at side self.old) session }
        ensures opened { self.new ≡ opened_at side session now self.old }
    {
        let has = self.has_get_parameter;
        match side {
            Side::Source => self.source.open(session, side, has, now),
            Side::Target => self.target.open(session, side, has, now),
        }
    }

    /// Gives the track its channels at a side.
    fn sets_pair(&mut self, side: Side, pair: ChannelPair) -> Turn
        requires { self.old.place.step ≡ Describe → ⊥ }
        ensures { SetsPair side pair self.old self.new result }
    {
        let place = self.progress.place();
        let track = self.progress.track();
        if let Err(fault) = self.passage.give(side, place, track, pair) {
            return self.ends(End::Channels { side, fault });
        }
        self.progress.done();
        Turn::GoesOn
    }
}
