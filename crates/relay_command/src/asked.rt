//! A command line, from its words to what it asks for.
ghost use Rattle.std.specs.Prelude.{◌≡◌, ◌≤◌, IfOk, IfErr, IsTrue};
ghost use Rattle.clap.specs.Values.{kind_of};
ghost use Rattle.clap.specs.declared.error.kind.ErrorKind.TheVariants.{ArgumentConflict, ValueValidation};
ghost use Rattle.std.specs.Option.{option_copied};
ghost use Rattle.relay_command.specs.Channels.{GivesChannels};
ghost use Rattle.relay_command.specs.Serving.{HasRoomToSend, IsServedInRange};
ghost use Rattle.relay_command.specs.Stopping.{IsStopped, IsNoActor};

use crate::channels::read_channels;
use crate::commands::{command, pass_command, serve_command, steps_command};
use crate::pull_line::{can_have_password, hidden_fault, pulling_of};
use crate::settings::{Endpoints, Origins, Passing, SendBuffer, Settings, number};
use crate::task::{Task, task_named};
use clap::error::ErrorKind;
use clap::{ArgMatches, Error};
use networks::{NetworkFault, Networks};
use pull_plan::PullSettings;
use ring_script::read_actor;
use ring_steps::Actor;
use std::alloc::{AllocError, Global};
use std::convert::AsStr;
use transport_header::TrackChannels;

/// What an accepted command line asks for.
#[derive(Drop)]
pub enum Asked {
    /// One connection is answered, with the text after `--word`.
    Talk(Option<String>),
    /// A ring's schedule is run, after which this actor stops, if one does.
    Steps(Option<Actor>),
    /// Connections are served at these addresses, with these settings, from these networks.
    Serve(Endpoints, Settings, Origins),
    /// A publisher's stream is passed through a ring to a player.
    Pass(Passing),
    /// A stream is fetched from a server and published.
    Pull(PullSettings),
    /// No command, which the parser lets no line be.
    Nothing,
}

/// Returns what the words of a command line ask for, of which the first is the program's name. An error has a text and an exit
/// code. Its text is why the line isn't understood, the help that it asks for, or `out of memory`.
pub fn read_words<S: AsStr>(alloc: Global, words: &[S]) -> Result<Asked, Error>
    ensures ranges { IfOk result IsServedInRange }
{
    match command(alloc)?.try_get_matches_from(words) {
        Ok(matches) => asked_of(alloc, &matches),
        Err(error) if error.exit_code() != 0 && can_have_password(words) => {
            Err(hidden_fault(alloc)?)
        }
        Err(error) => Err(error),
    }
}

/// What the parser found, as what is asked for.
fn asked_of(alloc: Global, matches: &ArgMatches) -> Result<Asked, Error>
    ensures ranges { IfOk result IsServedInRange }
{
    let Some((name, of_command)) = matches.subcommand() else {
        return Ok(Asked::Nothing);
    };
    match task_named(name) {
        Some(Task::Talk) => Ok(Asked::Talk(text_of(alloc, of_command, "word")?)),
        Some(Task::Steps) => {
            let stopped = stopped_of(alloc, of_command.get_str("stopped"))?;
            Ok(Asked::Steps(stopped))
        }
        Some(Task::Serve) => {
            let endpoints = endpoints_of(alloc, of_command)?;
            let settings = Settings::of(of_command);
            if settings.is_direct && settings.writers.is_some_and(|count| count != 0) {
                return Err(direct_by_writers(alloc)?);
            }
            if is_short(settings.send_buffer) {
                return Err(short_send_buffer(alloc)?);
            }
            let origins = origins_of(alloc, of_command)?;
            Ok(Asked::Serve(endpoints, settings, origins))
        }
        Some(Task::Pass) => Ok(Asked::Pass(passing_of(alloc, of_command)?)),
        Some(Task::Pull) => Ok(Asked::Pull(pulling_of(alloc, of_command)?)),
        None => Ok(Asked::Nothing),
    }
}

/// Returns what `relay pass` passes on. Without `--to` packets go out on the channels that they come in on.
fn passing_of(alloc: Global, matches: &ArgMatches) -> Result<Passing, Error>
    ensures kept { IfOk result (λ passing. (1 ≤ passing.keep) × (passing.keep ≤ 4095)) }
{
    let channels = matches.get_str("channels").unwrap_or("0-1");
    let from = channels_of(alloc, "channels", channels)?;
    let to = channels_of(alloc, "to", matches.get_str("to").unwrap_or(channels))?;
    let keep = number(matches, "keep").clamp(1, 4095);
    Ok(Passing { keep, from, to })
}

/// Returns the channels that the text of an option gives to tracks. It is an error if it gives none.
fn channels_of(alloc: Global, name: &str, text: &str) -> Result<TrackChannels, Error>
    ensures { IfOk result (GivesChannels text.now) }
{
    match read_channels(text.as_bytes()) {
        Some(channels) => Ok(channels),
        None => Err(no_channels(alloc, name, text)?),
    }
}

/// A command line fault: a text gives no channels.
fn no_channels(alloc: Global, name: &str, text: &str) -> Result<Error, AllocError>
    ensures { IfOk result (λ error. kind_of error ≡ ValueValidation) }
{
    let why = format!(in alloc;
        "invalid value '{text}' for '--{name} <A-B>': not up to 16 pairs of different channels, as 0-1,2-3"
    )?;
    let mut command = pass_command(alloc)?.bin_name("relay pass")?;
    command.error(ErrorKind::ValueValidation, &why)
}

/// Returns a copy of the text of an option or an argument.
fn text_of(alloc: Global, matches: &ArgMatches, name: &str) -> Result<Option<String>, AllocError> {
    match matches.get_str(name) {
        Some(text) => Ok(Some(String::from_str(alloc, text)?)),
        None => Ok(None),
    }
}

/// Returns the addresses at which a server listens.
fn endpoints_of(alloc: Global, matches: &ArgMatches) -> Result<Endpoints, AllocError> {
    Ok(Endpoints {
        rtsp: text_of(alloc, matches, "addr")?.unwrap_or(String::new(alloc)),
        http: text_of(alloc, matches, "http")?,
        http_players: matches.get_flag("http-players"),
    })
}

/// Returns the networks from which peers may publish and play, those without limits for an address, and those of proxies.
fn origins_of(alloc: Global, matches: &ArgMatches) -> Result<Origins, Error> {
    Ok(Origins {
        publish: networks_of(alloc, matches, "publish-from")?,
        play: networks_of(alloc, matches, "play-from")?,
        exempt: networks_of(alloc, matches, "limit-exempt")?,
        proxies: networks_of(alloc, matches, "proxy-from")?,
    })
}

/// Returns the networks of an option. An error has the reason why its text is no list of them.
fn networks_of(alloc: Global, matches: &ArgMatches, name: &str) -> Result<Option<Networks>, Error> {
    let Some(text) = matches.get_str(name) else {
        return Ok(None);
    };
    match Networks::read(alloc, text) {
        Ok(networks) => Ok(Some(networks)),
        Err(fault) => Err(no_networks(alloc, name, text, fault)?),
    }
}

/// A command line fault: a text is no list of networks.
fn no_networks(
    alloc: Global,
    name: &str,
    text: &str,
    fault: NetworkFault,
) -> Result<Error, AllocError>
    ensures { IfOk result (λ error. kind_of error ≡ ValueValidation) }
{
    if fault == NetworkFault::OutOfMemory {
        return Err(AllocError);
    }
    let why = format!(in alloc; "invalid value '{text}' for '--{name} <NET>': {fault}")?;
    let mut command = serve_command(alloc)?.bin_name("relay serve")?;
    command.error(ErrorKind::ValueValidation, &why)
}

/// Returns the actor that stops, if a text comes after `--stopped`. It is an error if the text names none.
fn stopped_of(alloc: Global, text: Option<&str>) -> Result<Option<Actor>, Error>
    ensures stopped { IfOk result (IsStopped (option_copied text.entry)) }
    ensures refused { IfErr result (IsNoActor (option_copied text.entry)) }
{
    let Some(name) = text else {
        return Ok(None);
    };
    match read_actor(name.as_bytes()) {
        Some(actor) => Ok(Some(actor)),
        None => Err(no_actor(alloc, name)?),
    }
}

/// A command line fault: `--direct` and writers exclude each other.
fn direct_by_writers(alloc: Global) -> Result<Error, AllocError>
    ensures { IfOk result (λ error. kind_of error ≡ ArgumentConflict) }
{
    let why = "the argument '--direct' cannot be used with '--writers <N>' other than 0";
    let mut command = serve_command(alloc)?.bin_name("relay serve")?;
    command.error(ErrorKind::ArgumentConflict, why)
}

/// The least send buffer that can be asked for, in bytes.
const LEAST_SEND_BUFFER: u32 = 16_384;

/// Returns whether a send buffer that is asked for is too short.
fn is_short(buffer: SendBuffer) -> bool
    ensures short { IsTrue result → HasRoomToSend buffer → ⊥ }
    ensures long { (IsTrue result → ⊥) → HasRoomToSend buffer }
{
    match buffer {
        SendBuffer::Bytes(bytes) => bytes < LEAST_SEND_BUFFER,
        SendBuffer::Default | SendBuffer::System => false,
    }
}

/// A command line fault: a send buffer is too short.
fn short_send_buffer(alloc: Global) -> Result<Error, AllocError>
    ensures { IfOk result (λ error. kind_of error ≡ ValueValidation) }
{
    let why = "invalid value for '--send-buffer <BYTES>': neither 0 nor 16384 to 4194304";
    let mut command = serve_command(alloc)?.bin_name("relay serve")?;
    command.error(ErrorKind::ValueValidation, why)
}

/// A command line fault: a text names no actor.
fn no_actor(alloc: Global, name: &str) -> Result<Error, AllocError>
    ensures { IfOk result (λ error. kind_of error ≡ ValueValidation) }
{
    let why = format!(in alloc;
        "invalid value '{name}' for '--stopped <A>': not p and no seat's number"
    )?;
    let mut command = steps_command(alloc)?.bin_name("relay steps")?;
    command.error(ErrorKind::ValueValidation, &why)
}
