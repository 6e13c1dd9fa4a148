//! The files that a command reads: their texts, and the program of a source.
ghost use Rattle.std.specs.Prelude.{◌≡◌, ◌≤◌, None, length, IfOk, IfErr, OnOk};
ghost use Rattle.aegis_edge.specs.Folder.{AsksOne};
ghost use Rattle.aegis_words.specs.FileReading.{HasText};
ghost use Rattle.aegis_run.specs.Answers.{IsFileFault};
ghost use Rattle.aegis_run.specs.FilesRead.{AcceptCause, BuildCause, CompileCause, IsBuiltFrom, OpenCause};
ghost use Rattle.compiler.specs.CompilerTheorem.{IsCompiled};
ghost use Rattle.compiler.specs.MemoryUse.{source_fault};
ghost use Rattle.aegis_run.specs.SourceTexts.{IsSource};

use crate::ends::TopEnd;
use aegis_edge::{Folder, FolderError};
use aegis_num::limits::MAX_SOURCE_BYTES;
use aegis_words::{File, limit};
use c_reader::read_program;
use c_token::tokens;
use c_types::{Checked, check};
use compiler::compile;
use image_file::Image;
use std::alloc::Global;

/// The whole text of a file, which holds at most its limit.
pub fn open<F: Folder>(
    alloc: Global,
    folder: &mut F,
    name: &str,
    file: File,
) -> Result<Vec<u8>, TopEnd>
    ensures read { IfOk result (λ text. HasText (F.files folder.old)
        (record { file = file; name = name.now }) text.items) }
    ensures refused { IfErr result (λ end. OpenCause (F.files folder.old)
        (record { file = file; name = name.now }) (F.faults folder.old) (F.faults folder.new) end) }
    ensures steady { OnOk result (F.faults folder.new ≡ F.faults folder.old) }
    ensures count { IfErr result (λ end.
        (IsFileFault end → ⊥) → F.faults folder.new ≡ F.faults folder.old) }
    ensures asked { AsksOne (F.asked folder.old) (F.asked folder.new) name.now
        (F.faults folder.old) }
    ensures kept { F.files folder.new ≡ F.files folder.old }
{
    let mut text = Vec::new(alloc);
    match folder.read(alloc, name, limit(file), &mut text) {
        Ok(()) => Ok(text),
        Err(FolderError::Missing) => Err(TopEnd::NoFile(file)),
        Err(FolderError::TooLong) => Err(TopEnd::TooLong(file)),
        Err(FolderError::Failed) => Err(TopEnd::ReadFault),
        Err(FolderError::OutOfMemory) => Err(TopEnd::OutOfMemory),
    }
}

/// The program of a text, if it is one that keeps the typing rules.
pub fn accept(alloc: Global, text: &[u8]) -> Result<Checked, TopEnd>
    requires { length text.now ≤ MAX_SOURCE_BYTES }
    ensures source { IfOk result (λ checked. IsSource text.now checked) }
    ensures refused { IfErr result (λ end. AcceptCause text.now end) }
{
    let tokens = tokens(alloc, text)?;
    let program = read_program(alloc, tokens.as_slice())?;
    match check(alloc, program) {
        Ok(checked) => Ok(checked),
        Err(error) => Err(TopEnd::from(error)),
    }
}

/// The image of a text, if it is a program that keeps the typing rules and passes no limit.
pub fn build(alloc: Global, text: &[u8]) -> Result<Image, TopEnd>
    requires { length text.now ≤ MAX_SOURCE_BYTES }
    ensures built { IfOk result (IsBuiltFrom text.now) }
    ensures refused { IfErr result (BuildCause text.now) }
{
    let program = accept(alloc, text)?;
    image_of(alloc, &program)
}

/// The image of a program, if it passes no limit.
fn image_of(alloc: Global, program: &Checked) -> Result<Image, TopEnd>
    ensures compiled { IfOk result (IsCompiled program.now) }
    ensures fits { OnOk result (source_fault program.now ≡ None) }
    ensures refused { IfErr result (CompileCause program.now) }
{
    match compile(alloc, program) {
        Ok(image) => Ok(image),
        Err(error) => Err(TopEnd::from(error)),
    }
}
