//! Writing a whole text.
ghost use Rattle.std.specs.Prelude.{◌≡◌, ◌<◌, true, false, length, take, IfErr, OnOk, OnErr};
ghost use Rattle.std.specs.Io.KnownBytes.{Appends};

use crate::device::{Failed, Sink};
use std::error::Error;
use std::fmt;

/// A text of which only the front went out.
#[derive(Clone, Copy, Debug, PartialEq, Eq)]
pub struct WriteCut {
    /// How many of its bytes went out before the sink failed.
    pub written: usize,
}

impl fmt::Display for WriteCut {
    ghost use Rattle.std.specs.Prelude.{◌++◌, Some, codes, decimal};

    ghost output = { λ cut. Some (codes "the sink failed after " ++ (decimal cut.written ++ codes " bytes")) };

    fn fmt<W: fmt::Write>(&self, f: &mut fmt::Formatter<W>) -> fmt::Result {
        write!(f, "the sink failed after {} bytes", self.written)
    }
}

impl Error for WriteCut {}

/// Writes all the bytes, or as many as the sink takes. No bytes are written by no call of the sink.
pub fn write_all<W: Sink>(sink: &mut W, bytes: &[u8]) -> Result<(), WriteCut>
    ensures ok { OnOk result (Appends (W.written sink.old) (W.written sink.new) bytes.now) }
    ensures working { OnOk result (0 < length bytes.now → (W.failed sink.old ≡ false) × (W.failed sink.new ≡ false)) }
    ensures same { OnOk result (W.failed sink.new ≡ W.failed sink.old) }

    ensures cut { IfErr result (λ e. e.written < length bytes.now) }
    ensures front { IfErr result (λ e. Appends (W.written sink.old) (W.written sink.new) (take e.written bytes.now)) }
    ensures failed { OnErr result (W.failed sink.new ≡ true) }
{
    let mut written = 0;
    while written < bytes.len() {
        match sink.write(&bytes[written..]) {
            Ok(taken) => written += taken,
            Err(Failed) => return Err(WriteCut { written }),
        }
    }
    Ok(())
}
