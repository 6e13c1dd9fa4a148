//! Folders: files by name.
ghost use Rattle.std.specs.Prelude.{◌≡◌, ℕ, ◌≤◌, List, [], Option, vec_len, OnOk, OnErr};
ghost use Rattle.aegis_edge.specs.Faults.{Rose};
ghost use Rattle.aegis_edge.specs.Folder.{Files, Asking, AsksOne, HoldsWhole, HoldsFront, IsMissing, IsTooLong};

use std::alloc::Global;
use thiserror::Error;

/// Why a file was not read.
#[derive(Clone, Copy, Debug, PartialEq, Eq, Error)]
pub enum FolderError {
    /// No file has this name.
    #[error("no such file")]
    Missing,
    /// The file or the folder failed.
    #[error("read fault")]
    Failed,
    /// The file holds more bytes than the limit.
    #[error("file too long")]
    TooLong,
    /// Memory ran out.
    #[error("out of memory")]
    OutOfMemory,
}

/// Files by name.
pub trait Folder {
    /// The file of each name, where the folder tells its files.
    ghost files: { Self → Option Files };

    /// The names that it was asked for so far, in order, where the folder tells them.
    ghost asked: { Self → Option (List Asking) };

    /// How many faults there were.
    ghost faults: { Self → ℕ };

    /// Reads the whole file of a name, of at most `limit` bytes.
    fn read(
        &mut self,
        alloc: Global,
        name: &str,
        limit: u64,
        into: &mut Vec<u8>,
    ) -> Result<(), FolderError>
        requires empty { into.old.items ≡ [] }

        ensures whole { OnOk result (HoldsWhole (files self.old) name.now into.new.items) }
        ensures within { OnOk result (vec_len into.new ≤ limit) }

        ensures missing { result ≡ Err FolderError.Missing
            → IsMissing (files self.old) name.now (faults self.old) (faults self.new) }
        ensures nothing { result ≡ Err FolderError.Missing → into.new.items ≡ [] }
        ensures too_long { result ≡ Err FolderError.TooLong
            → IsTooLong (files self.old) name.now limit (faults self.old) (faults self.new) }
        ensures failed { result ≡ Err FolderError.Failed
            → Rose (faults self.old) (faults self.new) }
        ensures front { OnErr result (HoldsFront (files self.old) name.now into.new.items) }

        ensures steady { OnOk result (faults self.new ≡ faults self.old) }
        ensures lean { result ≡ Err FolderError.OutOfMemory → faults self.new ≡ faults self.old }
        ensures asks { AsksOne (asked self.old) (asked self.new) name.now (faults self.old) }
        ensures kept { files self.new ≡ files self.old }
        ensures counted { faults self.old ≤ faults self.new };
}
