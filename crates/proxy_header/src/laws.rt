//! What the definitions of this crate mean, as theorems that call nothing.
ghost use Rattle.std.specs.Prelude.{◌≡◌, ◌++◌, ℕ, List, Option};
ghost use Rattle.std.specs.declared.net.socket_addr.SocketAddr.{SocketAddr};
ghost use Rattle.proxy_header.specs.Headers.{IsHeader};

/// No header begins another: bytes begin with one header at most, in whatever pieces they come, and it gives one client.
pub fn one_header()
    ensures same { (one other after after' : List ℕ) (client client' : Option SocketAddr) → IsHeader one client → IsHeader other client' → one ++ after ≡ other ++ after' → one ≡ other }
    ensures client { (one other after after' : List ℕ) (client client' : Option SocketAddr) → IsHeader one client → IsHeader other client' → one ++ after ≡ other ++ after' → client ≡ client' }
{}
