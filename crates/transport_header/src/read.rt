//! Reading a Transport header's value (RFC 2326, 12.39).
ghost use Rattle.std.specs.Prelude.{◌≡◌, IfOk, map};
ghost use Rattle.std.specs.Option.{option_copied};
ghost use Rattle.base_syntax.specs.Blanks.{trimmed};
ghost use Rattle.base_syntax.specs.Quotes.{rest_parts};
ghost use Rattle.transport_header.specs.Separators.{semicolon};
ghost use Rattle.transport_header.specs.Transport.{mode_in, channels_in, spec_of, specs_of};

use crate::parameter::{parameter, read_channels, read_mode, read_protocol};
use crate::spec::{ChannelPair, Mode, Spec};
use base_syntax::{cut_unquoted, trim};
use std::alloc::{AllocError, Global};

// The mode that a spec's parameters ask for.
fn mode_among(alloc: Global, parameters: Option<&[u8]>) -> Result<Mode, AllocError>
    ensures { IfOk result (λ mode. mode ≡ mode_in (map trimmed (rest_parts semicolon (option_copied parameters.entry)))) }
{
    match parameter(parameters, b"mode") {
        Some(value) => read_mode(alloc, value),
        None => Ok(Mode::Play),
    }
}

// The channels that a spec's parameters ask for.
fn channels_among(parameters: Option<&[u8]>) -> Option<ChannelPair>
    ensures { result ≡ channels_in (map trimmed (rest_parts semicolon (option_copied parameters.entry))) }
{
    match parameter(parameters, b"interleaved") {
        Some(value) => read_channels(value),
        None => None,
    }
}

// One spec.
#[tactic(auto, unfolding(crate::specs::Transport::spec_of))]
fn read_spec(alloc: Global, text: &[u8]) -> Result<Spec, AllocError>
    ensures { IfOk result (λ spec. spec ≡ spec_of text.now) }
{
    let (transport, parameters) = cut_unquoted(text, b';');
    let mode = mode_among(alloc, parameters)?;
    Ok(Spec {
        protocol: read_protocol(trim(transport)),
        multicast: parameter(parameters, b"multicast").is_some(),
        interleaved: channels_among(parameters),
        mode,
    })
}

/// Reads the value of a Transport header: its specs, in order. The value is cut at commas outside of
/// double quotes into specs, and each spec at such semicolons into its transport and its parameters,
/// without the spaces and tabs at their ends. Of a parameter that comes several times the first counts,
/// names and the transport are read in any case, and unknown parameters are passed over
/// (RFC 2326, 12.39). Any bytes are read; the only error is out of memory.
#[tactic(auto, unfolding(crate::specs::Transport::specs_of))]
pub fn read_transport(alloc: Global, text: &[u8]) -> Result<Vec<Spec>, AllocError>
    ensures { IfOk result (λ specs. specs.items ≡ specs_of text.now) }
{
    let mut specs = Vec::new(alloc);
    let mut rest = Some(text);
    while let Some(value) = rest {
        let (part, others) = cut_unquoted(value, b',');
        specs.push(read_spec(alloc, part)?)?;
        rest = others;
    }
    Ok(specs)
}
