//! Cases of networks, and of the addresses in them.

use case_texts::{Arguments, Fault, Told, meaning};
use networks::{Address, NetworkFault, Networks};
use std::alloc::{AllocError, Global};
use std::net::IpAddr;
use std::str;

/// What a word of a case of networks asks for.
#[derive(Clone, Copy, Drop)]
enum NetworkWord {
    Read,
    Holds,
    Address,
    Group,
}

/// The words of a case of networks.
const WORDS: [(&str, NetworkWord); 4] = [
    ("read", NetworkWord::Read),
    ("holds", NetworkWord::Holds),
    ("address", NetworkWord::Address),
    ("group", NetworkWord::Group),
];

/// Runs a call of a case of networks.
pub fn call_networks(
    word: &[u8],
    arguments: &mut Arguments<'_>,
    told: &mut Told,
) -> Result<(), Fault> {
    match meaning(&WORDS, word).ok_or(Fault::UnknownWord)? {
        NetworkWord::Read => {
            let text = arguments.text(told.alloc())?;
            tell_networks(&text, told)
        }
        NetworkWord::Holds => tell_holds(arguments, told),
        NetworkWord::Address => Ok(tell_address(address_in(arguments)?, told)?),
        NetworkWord::Group => Ok(tell_address(address_in(arguments)?.group(), told)?),
    }
}

/// `read TEXT`: a fact for each network, or `refused` and why.
fn tell_networks(text: &[u8], told: &mut Told) -> Result<(), Fault> {
    match read_networks(told.alloc(), text)? {
        Ok(networks) => Ok(tell_list(&networks, told)?),
        Err(fault) => Ok(tell_fault(fault, told)?),
    }
}

fn tell_list(networks: &Networks, told: &mut Told) -> Result<(), AllocError> {
    for network in networks.as_slice() {
        let text = format!(in told.alloc(); "{network}")?;
        told.fact(text.as_bytes())?;
    }
    Ok(())
}

/// `holds NETWORKS ADDRESS`: `yes`, `no`, or `refused` and why.
fn tell_holds(arguments: &mut Arguments<'_>, told: &mut Told) -> Result<(), Fault> {
    let text = arguments.word().unwrap_or(b"");
    let address = address_in(arguments)?;
    match read_networks(told.alloc(), text)? {
        Ok(networks) => Ok(told.truth(networks.contains(address))?),
        Err(fault) => Ok(tell_fault(fault, told)?),
    }
}

/// The networks of a text, or why they are refused. Out of memory is an error of the run.
fn read_networks(alloc: Global, text: &[u8]) -> Result<Result<Networks, NetworkFault>, Fault> {
    let Ok(text) = str::from_utf8(text) else {
        return Err(Fault::BadEscape);
    };
    match Networks::read(alloc, text) {
        Err(NetworkFault::OutOfMemory) => Err(Fault::OutOfMemory),
        read => Ok(read),
    }
}

fn tell_fault(fault: NetworkFault, told: &mut Told) -> Result<(), AllocError> {
    let text = format!(in told.alloc(); "{fault}")?;
    told.named(b"refused", text.as_bytes())
}

fn tell_address(address: Address, told: &mut Told) -> Result<(), AllocError> {
    let text = format!(in told.alloc(); "{address}")?;
    told.fact(text.as_bytes())
}

/// Takes the address of a peer.
fn address_in(arguments: &mut Arguments<'_>) -> Result<Address, Fault> {
    let word = arguments.word().unwrap_or(b"");
    match IpAddr::parse_ascii(word) {
        Ok(ip) => Ok(Address::of(ip)),
        Err(_) => Err(Fault::BadAddress),
    }
}
