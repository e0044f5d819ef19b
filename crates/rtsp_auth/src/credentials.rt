//! What a client proves to know.
ghost use Rattle.std.specs.Prelude.{◌≡◌, true, None, Some, IsOk, IfOk, IfErr};
ghost use Rattle.rtsp_auth.specs.Plain.{has_no_colon, has_no_control};

use crate::credentials_fault::CredentialsFault;
use crate::plain::{has_no_colon, has_no_control};
use base_syntax::{Bytes, is_same_name};

/// A user name and a password, and the host that they are for. Neither the user name nor the password has a byte below 0x20 or 0x7F, and the
/// user name has no colon (RFC 7617, 2), so that they can't end the line of a field, and a server reads them as they are.
#[derive(Drop)]
pub struct Credentials {
    /// The user name. It can be empty.
    pub user: Bytes,
    /// The password. It can be empty.
    pub password: Bytes,
    /// The host of the URL that they were given with. An answer of Basic, which shows the password, goes to no other one.
    pub host: Bytes,
    ghost plain_user: { has_no_control user ≡ true },
    ghost whole_user: { has_no_colon user ≡ true },
    ghost plain_password: { has_no_control password ≡ true },
}

impl Credentials {
    ghost use Rattle.base_syntax.specs.Names.{same_name};
    ghost use Rattle.rtsp_auth.specs.Credentials.{credentials_fault};

    /// Makes credentials of a user name and a password, for a host. Those of a URL are given decoded (RFC 3986, 2.1). They are refused if one
    /// of them can't be sent, whether the server wants Digest or Basic.
    pub fn new(user: Bytes, password: Bytes, host: Bytes) -> Result<Credentials, CredentialsFault>
        ensures user { IfOk result (λ credentials. credentials.user ≡ user) }
        ensures password { IfOk result (λ credentials. credentials.password ≡ password) }
        ensures host { IfOk result (λ credentials. credentials.host ≡ host) }
        ensures ok { credentials_fault user password ≡ None → IsOk result }
        ensures err { IfErr result (λ fault. credentials_fault user password ≡ Some fault) }
    {
        if !has_no_control(user.as_slice()) {
            return Err(CredentialsFault::ControlInUser);
        }
        if !has_no_colon(user.as_slice()) {
            return Err(CredentialsFault::ColonInUser);
        }
        if !has_no_control(password.as_slice()) {
            return Err(CredentialsFault::ControlInPassword);
        }
        Ok(Credentials {
            user,
            password,
            host,
        })
    }

    /// Returns whether they are for this host. Hosts are compared without regard to case (RFC 3986, 3.2.2).
    pub fn is_for(&self, host: &[u8]) -> bool
        ensures { result ≡ same_name self.now.host host.now }
    {
        is_same_name(self.host.as_slice(), host)
    }
}
