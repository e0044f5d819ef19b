//! The program around a pull: the system's clock, network, files and log.
use crate::connecting::connect;
use crate::line::Line;
use crate::station::Station;
use crate::stopping::Stopping;
use crate::try_end::TryEnd;
use crate::try_sockets::Sockets;
use base_syntax::Bytes;
use log::{info, warn};
use rand::make_rng;
use rand::rngs::StdRng;
use rand_core::Rng;
use relay_log::Lines;
use rtsp_client::Side;
use sockets::SteadyClock;
use source_urls::{Source, Target};
use std::alloc::{AllocError, Global};
use std::io;
use std::net::{Net, TcpListener, TcpStream};
use std::random::RandomSource;
use std::sync::{Arc, Wait};
use std::time::Clock;

/// The source that lines are logged with.
const TARGET: &str = "relay_pull::camera";

/// The program around a pull.
pub(crate) struct Program<R> {
    pub(crate) rt: R,
    pub(crate) alloc: Global,
    pub(crate) clock: SteadyClock,
    pub(crate) stopping: Arc<Stopping, Global>,
    /// The lines that wait for standard error: a try doesn't wait for its reader.
    pub(crate) lines: Arc<Lines<R>, Global>,
    /// The name of the target's mount.
    pub(crate) name: String,
    /// Whether a file has the password.
    pub(crate) has_password_file: bool,
    pub(crate) is_verbose: bool,
}

impl<R: Drop> Drop for Program<R> {
    fn drop(self) {
        let Program {
            rt: _,
            alloc: _,
            clock: _,
            stopping: _,
            lines: _,
            name: _,
            has_password_file: _,
            is_verbose: _,
        } = self;
    }
}

impl<R> Station for Program<R>
where
    R: Wait + Clock + RandomSource + Net<Listener = TcpListener, Stream = TcpStream> + Drop,
{
    type Wires = Sockets;

    fn now(&mut self) -> u64 {
        self.clock.read(&self.rt).milliseconds()
    }

    fn is_stopped(&mut self) -> bool {
        self.stopping.is_stopped()
    }

    fn rest(&mut self, milliseconds: u64) {
        self.stopping.rest(&self.rt, milliseconds);
    }

    fn connect(&mut self, source: &Source, target: &Target) -> Result<Sockets, TryEnd> {
        let from = connect(&self.rt, Side::Source, &source.host, source.port)?;
        let to = connect(&self.rt, Side::Target, &target.host, target.port)?;
        Sockets::new(&self.rt, self.alloc, from, to)
    }

    fn reconnect(&mut self, wires: &mut Sockets, source: &Source) -> Result<(), TryEnd> {
        let from = connect(&self.rt, Side::Source, &source.host, source.port)?;
        wires.replace_source(from)
    }

    fn password(&mut self) -> Option<Bytes> {
        if self.has_password_file {
            self.stopping.next_password(&self.rt)
        } else {
            None
        }
    }

    fn draw(&mut self) -> Result<Bytes, TryEnd> {
        let drawn: io::Result<StdRng> = make_rng(&self.rt);
        let Ok(mut rng) = drawn else {
            return Err(TryEnd::NoRandomSource);
        };
        match hexadecimal(self.alloc, rng.next_u64()) {
            Ok(text) => Ok(text),
            Err(AllocError) => Err(TryEnd::OutOfMemory),
        }
    }

    fn log(&mut self, line: &Line) {
        if line.is_detail() && !self.is_verbose {
            return;
        }
        let (name, lines) = (self.name.as_str(), &*self.lines);
        if line.is_warning() {
            warn!(lines; target: TARGET, "camera of {name}: {line}");
        } else {
            info!(lines; target: TARGET, "camera of {name}: {line}");
        }
    }
}

/// Returns the sixteen hexadecimal digits of a number.
fn hexadecimal(alloc: Global, number: u64) -> Result<Bytes, AllocError> {
    let digits = hex::encode(alloc, number.to_be_bytes())?;
    Bytes::from_slice(alloc, digits.as_str().as_bytes())
}
