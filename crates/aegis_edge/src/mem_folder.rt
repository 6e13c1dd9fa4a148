//! A folder in memory, whose calls of `read` fail where a list says so.
ghost use Rattle.std.specs.Prelude.{◌≡◌, ◌<◌, ◌≤◌, ◌↔◌, [], None, Some, true, false, length, map, vec_len, vec_capacity, IsTrue, IsSome, IsSomeAnd, IfOk, OnOk, OnErr};
ghost use Rattle.std.specs.Option.{option_copied};
ghost use Rattle.std.specs.Map.{lookup};
ghost use Rattle.std.specs.Str.{bytes_eq};
ghost use Rattle.aegis_edge.specs.Folder.{HoldsFront};
ghost use Rattle.aegis_edge.specs.MemFile.{file_entry};
ghost use Rattle.aegis_edge.specs.MemFolder.{new_folder, file_of, with_asking, with_file, fails_next, after_read};

use crate::folder::{Folder, FolderError};
use aegis_num::OutOfMemory;
use arrayvec::ArrayString;
use std::alloc::Global;
use std::marker::Model;

/// The greatest length in bytes of a name that a folder in memory keeps of those that it was asked for.
pub const NAME_BYTES: usize = 256;

/// How many names a folder in memory keeps of those that it was asked for.
pub const NAMES_KEPT: usize = 64;

/// A file in memory.
#[derive(Drop)]
struct MemFile {
    name: String,
    bytes: Vec<u8>,
}

/// A name that was asked for, and how many faults there were before.
#[derive(Drop)]
struct Asked {
    name: ArrayString<NAME_BYTES>,
    faults: u64,
}

/// A folder in memory.
#[derive(Drop)]
pub struct MemFolder {
    alloc: Global,
    files: Vec<MemFile>,
    asked: Vec<Asked>,
    tells_names: bool,
    failing: Vec<u64>,
    calls: u64,
    faults: u64,
}

impl Model for MemFolder {
    ghost use Rattle.std.specs.Prelude.{◌≤◌, map, vec_capacity};
    ghost use Rattle.aegis_edge.specs.declared.mem_folder.TheConstants.{NAMES_KEPT};
    ghost use Rattle.aegis_edge.specs.MemFile.{file_entry, askings_of};
    ghost use Rattle.aegis_edge.specs.MemFolder.{FolderInMemory};

    ghost Value = { FolderInMemory };

    ghost view = { λ a. record {
      entries = map file_entry a.files.items;
      asked = askings_of a.tells_names a.asked.items;
      failing = a.failing.items;
      calls = a.calls;
      faults = a.faults;
    } };

    ghost invariant = { λ a. NAMES_KEPT ≤ vec_capacity a.asked };
}

// The bytes of the file of a name, where there is one.
fn find<'a>(files: &'a [MemFile], name: &str) -> Option<&'a [u8]>
    ensures { option_copied result ≡ lookup (bytes_eq name.now) (map file_entry files.now) }
{
    for file in files {
        if name == file.name.as_str() {
            return Some(file.bytes.as_slice());
        }
    }
    None
}

impl MemFolder {
    /// A folder with no file, which keeps its files in memory of `alloc`. `failing` lists the numbers of the
    /// calls of `read` that fail, counted from 0.
    pub fn new(alloc: Global, failing: &[u64]) -> Result<MemFolder, OutOfMemory>
        ensures new { IfOk result (λ folder. folder ≡ new_folder failing.now) }
    {
        let failing = Vec::from_slice(alloc, failing)?;
        let asked = Vec::with_capacity(alloc, NAMES_KEPT)?;
        Ok(MemFolder {
            alloc,
            files: Vec::new(alloc),
            asked,
            tells_names: true,
            failing,
            calls: 0,
            faults: 0,
        })
    }

    /// Whether a file has this name.
    pub fn contains(&self, name: &str) -> bool
        ensures { IsTrue result ↔ IsSome (file_of self.now name.now) }
    {
        find(&self.files, name).is_some()
    }

    /// Puts in a file under a new name. Where memory runs out the folder stays as it was.
    pub fn add(&mut self, name: &str, bytes: &[u8]) -> Result<(), OutOfMemory>
        requires new_name { file_of self.old name.now ≡ None }
        ensures added { OnOk result (self.new ≡ with_file self.old name.now bytes.now) }
        ensures unchanged { OnErr result (self.new ≡ self.old) }
    {
        let name = String::from_str(self.alloc, name)?;
        let bytes = Vec::from_slice(self.alloc, bytes)?;
        self.files.push(MemFile { name, bytes })?;
        Ok(())
    }

    // Notes a name that is asked for. Where there is no room for it no name is told from then on.
    fn note(&mut self, name: &str)
        ensures { self.new ≡ record self.old {
          asked = with_asking self.old.asked name.now self.old.faults;
        } }
    {
        if name.len() > NAME_BYTES || self.asked.len() >= NAMES_KEPT {
            self.tells_names = false;
            return;
        }
        let mut kept = ArrayString::new();
        kept.push_str(name);
        let asked = Asked {
            name: kept,
            faults: self.faults,
        };
        self.asked.push(asked).unwrap();
    }

    // Notes the name and counts a call, and its fault where it is listed, and answers whether it is.
    fn count_call(&mut self, name: &str) -> bool
        ensures listed { result ≡ fails_next self.old }
        ensures after { self.new ≡ after_read self.old name.now }
        ensures counted { self.old.faults ≤ self.new.faults }
    {
        self.note(name);
        let is_listed = self.failing.contains(&self.calls);
        self.calls = self.calls.saturating_add(1);
        if is_listed {
            self.faults = self.faults.saturating_add(1);
        }
        is_listed
    }
}

impl Folder for MemFolder {
    ghost files = { λ folder. Some (file_of folder) };

    ghost asked = { λ folder. folder.asked };

    ghost faults = { λ folder. folder.faults };

    /// Reads a file into `into`, by the allocator of `into`. A call that is listed fails, and reads nothing.
    #[tactic(auto, using(crate::proofs::Fronts::nothing_is_front))]
    fn read(
        &mut self,
        _alloc: Global,
        name: &str,
        limit: u64,
        into: &mut Vec<u8>,
    ) -> Result<(), FolderError>
        requires empty { into.old.items ≡ [] }

        ensures whole { OnOk result (file_of self.old name.now ≡ Some into.new.items) }
        ensures within { OnOk result (vec_len into.new ≤ limit) }
        ensures nothing { OnErr result (into.new.items ≡ []) }

        ensures failed { (result ≡ Err FolderError.Failed) ↔ (fails_next self.old ≡ true) }
        ensures missing { (result ≡ Err FolderError.Missing)
            ↔ ((fails_next self.old ≡ false) × (file_of self.old name.now ≡ None)) }
        ensures too_long { (result ≡ Err FolderError.TooLong)
            ↔ ((fails_next self.old ≡ false)
            × IsSomeAnd (file_of self.old name.now) (λ bytes. limit < length bytes)) }
        ensures full_only_at_capacity { (result ≡ Err FolderError.OutOfMemory)
            → IsSomeAnd (file_of self.old name.now)
            (λ bytes. vec_capacity into.old < length bytes) }

        ensures front { OnErr result
            (HoldsFront (Some (file_of self.old)) name.now into.new.items) }

        ensures after { self.new ≡ after_read self.old name.now }
        ensures counted { self.old.faults ≤ self.new.faults }
    {
        if self.count_call(name) {
            return Err(FolderError::Failed);
        }
        let Some(bytes) = find(&self.files, name) else {
            return Err(FolderError::Missing);
        };
        if bytes.len() as u64 > limit {
            return Err(FolderError::TooLong);
        }
        into.extend_from_slice(bytes)
            .map_err(|_| FolderError::OutOfMemory)
    }
}
