//! Reading a source to its end.
ghost use Rattle.std.specs.Prelude.{◌≡◌, IfOk, IfErr};
ghost use Rattle.ring_script.specs.Steps.{IsWholeInput, IsReadFault};

use interleaved::{Failed, Source};
use std::alloc::{AllocError, Global};

/// Why a source wasn't read to its end.
#[derive(Clone, Copy, Debug, PartialEq, Eq)]
pub(crate) enum ReadFault {
    /// The source failed.
    Failed,
    OutOfMemory,
}

impl From<AllocError> for ReadFault {
    ghost use Rattle.ring_script.specs.declared.read_all.ReadFault.TheVariants.{OutOfMemory};

    ghost from_gives = { λ _ e. e ≡ OutOfMemory };

    fn from(_error: AllocError) -> ReadFault {
        ReadFault::OutOfMemory
    }
}

/// All that a source gives, to its end.
pub(crate) fn read_all<R: Source>(alloc: Global, reader: &mut R) -> Result<Vec<u8>, ReadFault>
    ensures ok { IfOk result (λ bytes. IsWholeInput R.incoming reader.old reader.new bytes.items) }
    ensures failed { IfErr result (IsReadFault R.incoming R.failed reader.old reader.new) }
{
    let mut bytes = Vec::new(alloc);
    let mut piece = [0; 4096];
    loop {
        match reader.read(&mut piece) {
            Ok(0) => return Ok(bytes),
            Ok(count) => bytes.extend_from_slice(&piece[..count])?,
            Err(Failed) => return Err(ReadFault::Failed),
        }
    }
}
