//! A station whose tries do what scripts say.

use crate::script::{Opening, Script};
use crate::scripted_wires::ScriptedWires;
use crate::seen::Seen;
use base_syntax::Bytes;
use relay_pull::{Line, Station, TryEnd};
use rtsp_client::Side;
use source_urls::{Source, Target};
use std::alloc::Global;
use std::io::ErrorKind;

/// A password that becomes another one at a moment.
#[derive(Clone, Copy, Drop)]
pub(crate) struct Changing {
    pub(crate) before: &'static str,
    pub(crate) after: &'static str,
    pub(crate) at: u64,
}

/// A station whose tries do what scripts say, one after the other, and then the last one again and again. Its clock moves by a millisecond
/// when it is looked at, and by what is waited for.
#[derive(Drop)]
pub(crate) struct ScriptedStation<'a> {
    alloc: Global,
    seen: &'a Seen,
    scripts: &'a [Script],
    password: Option<Changing>,
    /// From which moment on the program is to stop.
    stop: u64,
    /// When it saw that first.
    pub(crate) stopped: Option<u64>,
    /// The moment of each connect.
    pub(crate) connects: Vec<u64>,
    /// How long it rested each time, in milliseconds.
    pub(crate) rests: Vec<u64>,
    /// Each line, with its moment.
    pub(crate) lines: Vec<(u64, Line)>,
}

impl<'a> ScriptedStation<'a> {
    /// A station with these tries, which is to stop from this moment on.
    pub(crate) fn new(
        alloc: Global,
        seen: &'a Seen,
        scripts: &'a [Script],
        password: Option<Changing>,
        stop: u64,
    ) -> ScriptedStation<'a> {
        ScriptedStation {
            alloc,
            seen,
            scripts,
            password,
            stop,
            stopped: None,
            connects: Vec::new(alloc),
            rests: Vec::new(alloc),
            lines: Vec::new(alloc),
        }
    }

    /// Returns what the next try does. `None` if there are no scripts.
    fn script(&self) -> Option<Script> {
        let last = self.scripts.len().saturating_sub(1);
        match self.scripts.get(self.connects.len().min(last)) {
            Some(script) => Some(*script),
            None => None,
        }
    }
}

impl<'a> Station for ScriptedStation<'a> {
    type Wires = ScriptedWires<'a>;

    fn now(&mut self) -> u64 {
        self.seen.passes(1);
        self.seen.now()
    }

    fn is_stopped(&mut self) -> bool {
        let is_stopped = self.seen.now() >= self.stop;
        if is_stopped && self.stopped.is_none() {
            self.stopped = Some(self.seen.now());
        }
        is_stopped
    }

    fn rest(&mut self, milliseconds: u64) {
        self.seen.passes(milliseconds);
        let _ = self.rests.push(milliseconds);
    }

    fn connect(&mut self, _source: &Source, _target: &Target) -> Result<ScriptedWires<'a>, TryEnd> {
        let script = self.script();
        let nonce = b'a'.saturating_add(u8::try_from(self.connects.len()).unwrap_or(0));
        let _ = self.connects.push(self.seen.now());
        match script {
            Some(script) if script.opening != Opening::Refused => {
                Ok(ScriptedWires::new(self.alloc, self.seen, script, nonce))
            }
            _ => {
                let (side, kind) = (Side::Source, ErrorKind::ConnectionRefused);
                Err(TryEnd::NotConnected { side, kind })
            }
        }
    }

    fn reconnect(
        &mut self,
        _wires: &mut ScriptedWires<'a>,
        _source: &Source,
    ) -> Result<(), TryEnd> {
        Ok(())
    }

    fn password(&mut self) -> Option<Bytes> {
        let changing = self.password?;
        let password = if self.seen.now() < changing.at {
            changing.before
        } else {
            changing.after
        };
        Bytes::from_slice(self.alloc, password.as_bytes()).ok()
    }

    fn draw(&mut self) -> Result<Bytes, TryEnd> {
        match Bytes::from_slice(self.alloc, b"0123456789abcdef") {
            Ok(text) => Ok(text),
            Err(_) => Err(TryEnd::OutOfMemory),
        }
    }

    fn log(&mut self, line: &Line) {
        let _ = self.lines.push((self.seen.now(), *line));
    }
}
