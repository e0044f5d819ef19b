//! What holds of every reading of a stream, however it is cut into pieces.

ghost use Rattle.std.specs.Prelude.{◌≡◌, ◌++◌, [], List, ℕ};
ghost use Rattle.std.specs.List.{concat};
ghost use Rattle.rtsp_message.specs.declared.unit.Unit.{Unit as StreamUnit};
ghost use Rattle.rtsp_message.specs.declared.fault.Fault.{Fault};
ghost use Rattle.rtsp_message.specs.declared.peer.Peer.TheVariants.{Server};
ghost use Rattle.rtsp_message.specs.Stream.{Ending, Waits, Fails, IsUnitFrom, Reads, ReadsOn, ReadsPieces};
ghost use Rattle.rtsp_message.specs.ServerStream.{IsReceived, received};

/// A stream reads in one way: its units, the bytes that wait and the fault are determined.
pub fn one_reading()
    ensures units { (stream : List ℕ) (us vs : List StreamUnit) (d e : Ending) → Reads stream us d → Reads stream vs e → us ≡ vs }
    ensures ending { (stream : List ℕ) (us vs : List StreamUnit) (d e : Ending) → Reads stream us d → Reads stream vs e → d ≡ e }
{}

/// Reading a stream and then more of it is reading both at once, and a fault stays whatever follows.
pub fn readings_compose()
    ensures { (stream more : List ℕ) (us vs : List StreamUnit) (d e : Ending) → Reads stream us d → ReadsOn d more vs e → Reads (stream ++ more) (us ++ vs) e }
{}

/// Whatever the pieces are that a stream comes in, it reads as its bytes do in one piece.
pub fn any_pieces()
    ensures { (pieces : List (List ℕ)) (units : List StreamUnit) (e : Ending) → ReadsPieces (Waits []) pieces units e → Reads (concat pieces) units e }
{}

/// What a client receives from a server: the bytes of a unit are those of what is made of it, a reply, a request or a frame.
pub fn servers()
    ensures { (bytes : List ℕ) (content : StreamUnit) → IsUnitFrom Server bytes content → IsReceived bytes (received content) }
{}
