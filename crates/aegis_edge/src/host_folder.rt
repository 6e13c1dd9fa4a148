//! A folder over the files of the host.
ghost use Rattle.std.specs.Prelude.{◌≡◌, ◌≢◌, ◌<◌, ◌≤◌, [], None, length, vec_len, OnOk, IfSome};
ghost use Rattle.aegis_edge.specs.Folder.{IsFrontOf};
ghost use Rattle.aegis_edge.specs.HostFolder.{faults_after, IsWholeOfOne, IsPassedByOne};

use crate::folder::{Folder, FolderError};
use std::alloc::Global;
use std::fs;
use std::io::{ErrorKind, Read};
use std::marker::Model;
use std::rt::Files;

/// How many bytes are asked for at once.
const READ_BYTES: usize = 4096;

/// The files of the host. It tells no bytes.
#[derive(Drop)]
pub struct HostFolder<R: Files + Drop> {
    rt: R,
    faults: u64,
}

impl<R: Files + Drop> Model for HostFolder<R> {
    ghost use Rattle.aegis_edge.specs.HostFolder.{FolderOfHost};

    ghost Value = { FolderOfHost };

    ghost view = { λ a. record { faults = a.faults } };
}

impl<R: Files + Drop> HostFolder<R> {
    /// The files that a runtime reaches, with no fault.
    pub fn new(rt: R) -> HostFolder<R>
        ensures { result.faults ≡ 0 }
    {
        HostFolder { rt, faults: 0 }
    }
}

// Reads what is left of a reader, as far as it is at most `limit` bytes.
fn read_within<F: Read>(file: &mut F, limit: u64, into: &mut Vec<u8>) -> Result<(), FolderError>
    requires empty { into.old.items ≡ [] }
    ensures whole { OnOk result (IfSome (F.remaining file.old) (λ bytes. into.new.items ≡ bytes)) }
    ensures within { vec_len into.new ≤ limit }
    ensures too_long { result ≡ Err FolderError.TooLong
        → IfSome (F.remaining file.old) (λ bytes. limit < length bytes) }
    ensures front { IfSome (F.remaining file.old) (λ bytes. IsFrontOf into.new.items bytes) }
    ensures never_missing { result ≢ Err FolderError.Missing }
{
    let mut buffer = [0; READ_BYTES];
    'reads: for _ in 0..u64::MAX {
        let Ok(count) = file.read(&mut buffer) else {
            return Err(FolderError::Failed);
        };
        if count == 0 {
            return Ok(());
        }
        if count as u64 > limit - into.len() as u64 {
            return Err(FolderError::TooLong);
        }
        if into.extend_from_slice(&buffer[..count]).is_err() {
            return Err(FolderError::OutOfMemory);
        }
    }
    Err(FolderError::Failed)
}

// Reads the file of a name, of at most `limit` bytes.
fn read_file<R: Files>(
    rt: &R,
    name: &str,
    limit: u64,
    into: &mut Vec<u8>,
) -> Result<(), FolderError>
    requires empty { into.old.items ≡ [] }
    ensures whole { OnOk result (IsWholeOfOne R.File.remaining into.new.items) }
    ensures within { vec_len into.new ≤ limit }
    ensures too_long { result ≡ Err FolderError.TooLong → IsPassedByOne R.File.remaining limit }
    ensures nothing { result ≡ Err FolderError.Missing → into.new.items ≡ [] }
{
    match fs::open(rt, name) {
        Ok(mut file) => read_within(&mut file, limit, into),
        Err(error) if error.kind() == ErrorKind::NotFound => Err(FolderError::Missing),
        Err(_) => Err(FolderError::Failed),
    }
}

impl<R: Files + Drop> Folder for HostFolder<R> {
    ghost files = { λ _. None };

    ghost asked = { λ _. None };

    ghost faults = { λ folder. folder.faults };

    /// Reads a file into `into`, by the allocator of `into`. Each refusal but want of memory is counted.
    fn read(
        &mut self,
        _alloc: Global,
        name: &str,
        limit: u64,
        into: &mut Vec<u8>,
    ) -> Result<(), FolderError>
        requires empty { into.old.items ≡ [] }
        ensures whole { OnOk result (IsWholeOfOne R.File.remaining into.new.items) }
        ensures within { vec_len into.new ≤ limit }
        ensures too_long { result ≡ Err FolderError.TooLong → IsPassedByOne R.File.remaining limit }
        ensures nothing { result ≡ Err FolderError.Missing → into.new.items ≡ [] }
        ensures after { self.new.faults ≡ faults_after self.old.faults result }
        ensures counted { self.old.faults ≤ self.new.faults }
    {
        let answer = read_file(&self.rt, name, limit, into);
        if !matches!(answer, Ok(()) | Err(FolderError::OutOfMemory)) {
            self.faults = self.faults.saturating_add(1);
        }
        answer
    }
}
