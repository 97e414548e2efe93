ghost use Rattle.std.specs.Prelude.{IfOk, IfErr, Ok, Err};
ghost use Rattle.mgn_session.specs.Session.{Fetch};

use mgn_ids::SetName;
use std::alloc::AllocError;
use thiserror::Error;

/// Why a source gives no file.
#[derive(Clone, Copy, PartialEq, Eq, Debug, Error)]
pub enum SourceFault {
    /// There is no file of that name.
    #[error("no file of that name")]
    Missing,
    /// The file could not be read.
    #[error("the file could not be read")]
    Failed,
    /// The file holds more bytes than a set's file may.
    #[error("more bytes than a set's file may hold")]
    Long,
    /// Memory could not be had.
    #[error("memory could not be had")]
    Memory,
}

impl From<AllocError> for SourceFault {
    ghost use Rattle.std.specs.Prelude.{◌≡◌};
    ghost use Rattle.mgn_session.specs.declared.source.SourceFault.TheVariants as fault;

    ghost from_gives = { λ _ given. given ≡ fault.Memory };

    fn from(_error: AllocError) -> SourceFault {
        SourceFault::Memory
    }
}

/// Where the files of parameter sets come from, by the sets' names.
pub trait SetSource {
    // What a fetch does: by the source before, the name, the bytes or why there are none, and the source after.
    ghost gives: { Fetch Self };

    /// The bytes of the file of a set.
    fn fetch(&mut self, name: &SetName) -> Result<Vec<u8>, SourceFault>
        ensures ok { IfOk result (λ bytes. gives self.old name.now (Ok bytes.items) self.new) }
        ensures err { IfErr result (λ fault. gives self.old name.now (Err fault) self.new) };
}

/// A source without files.
#[derive(Clone, Copy, Drop)]
pub struct NoFiles;

impl SetSource for NoFiles {
    ghost use Rattle.std.specs.Prelude.{◌≡◌};
    ghost use Rattle.mgn_session.specs.declared.source.SourceFault.TheVariants as fault;

    ghost gives = { λ _ _ given _. given ≡ Err fault.Missing };

    fn fetch(&mut self, _name: &SetName) -> Result<Vec<u8>, SourceFault> {
        Err(SourceFault::Missing)
    }
}
