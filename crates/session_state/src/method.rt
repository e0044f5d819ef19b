//! The methods (RFC 2326, 10).
ghost use Rattle.std.specs.Prelude.{◌≡◌};
ghost use Rattle.session_state.specs.Methods.{method_of};

/// The methods that a request may have (RFC 2326, 10).
#[derive(Clone, Copy, Debug, PartialEq, Eq, Drop)]
pub enum Method {
    Options,
    Describe,
    Announce,
    Setup,
    Play,
    Pause,
    Record,
    Teardown,
    GetParameter,
}

/// The method of this name, compared exactly (RFC 2326, 6.1). `None` for another name.
#[tactic(auto, unfolding(crate::specs::Methods::method_of))]
pub fn read_method(name: &[u8]) -> Option<Method>
    ensures { result ≡ method_of name.now }
{
    if name == b"OPTIONS".as_slice() {
        return Some(Method::Options);
    }
    if name == b"DESCRIBE".as_slice() {
        return Some(Method::Describe);
    }
    if name == b"ANNOUNCE".as_slice() {
        return Some(Method::Announce);
    }
    if name == b"SETUP".as_slice() {
        return Some(Method::Setup);
    }
    if name == b"PLAY".as_slice() {
        return Some(Method::Play);
    }
    if name == b"PAUSE".as_slice() {
        return Some(Method::Pause);
    }
    if name == b"RECORD".as_slice() {
        return Some(Method::Record);
    }
    if name == b"TEARDOWN".as_slice() {
        return Some(Method::Teardown);
    }
    if name == b"GET_PARAMETER".as_slice() {
        return Some(Method::GetParameter);
    }
    None
}
