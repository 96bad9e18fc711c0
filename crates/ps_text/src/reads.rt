//! Files, from which whole texts are read.
ghost use Rattle.std.specs.Prelude.{◌≡◌};
ghost use Rattle.ps_text.specs.declared.reads.FileRefusal.TheVariants.{OutOfMemory};

use std::alloc::{AllocError, AllocFailed, Global};

/// Why a file was not read.
#[derive(Clone, Copy, PartialEq, Eq, Debug)]
pub enum FileRefusal {
    /// The file isn't there, or reading it failed.
    Failed,
    /// Memory ran out.
    OutOfMemory,
}

impl From<AllocError> for FileRefusal {
    ghost from_gives = { λ _ e. e ≡ OutOfMemory };

    fn from(_e: AllocError) -> FileRefusal {
        FileRefusal::OutOfMemory
    }
}

impl<T: Drop> From<AllocFailed<T>> for FileRefusal {
    ghost from_gives = { λ _ e. e ≡ OutOfMemory };

    fn from(_e: AllocFailed<T>) -> FileRefusal {
        FileRefusal::OutOfMemory
    }
}

/// Texts by their names.
pub trait Files {
    ghost use Rattle.ps_text.specs.Outside.{Reads, FilesView};

    /// What the files tell, and how their reads went.
    ghost shown: { Self → FilesView };

    /// The whole text under a name. It is `Failed` where there is none or reading it failed.
    fn read(&mut self, alloc: Global, name: &str) -> Result<Vec<u8>, FileRefusal>
        ensures { Reads name.now (shown self.old) (shown self.new) result };
}
