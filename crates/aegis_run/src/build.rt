//! The command `build`.
ghost use Rattle.std.specs.Prelude.{◌≡◌, None, IfOk, IfErr};
ghost use Rattle.aegis_words.specs.CommandTable as asks;
ghost use Rattle.aegis_words.specs.KeptWords.{build_names_of};
ghost use Rattle.image_file.specs.ImageTable.{bytes_of};
ghost use Rattle.aegis_run.specs.Answers.{IsFileFault, IsWriteFault, RisesWhere};
ghost use Rattle.aegis_run.specs.BuildCommand.{BuildCommand};
ghost use Rattle.aegis_run.specs.Causes.{IsAnswered};
ghost use Rattle.aegis_run.specs.FilesRead.{BuildReady, IsStopped, SendsBytes};

use crate::ends::TopEnd;
use crate::files::{build, open};
use aegis_edge::{Folder, Sink};
use aegis_num::OutOfMemory;
use aegis_words::{BuildWords, File};
use image_file::{Image, image_bytes};
use std::alloc::Global;

/// Writes the image of a source, where its file allows it.
pub fn answer_build<F: Folder, K: Sink>(
    alloc: Global,
    names: &BuildWords<'_>,
    folder: &mut F,
    out: &mut K,
) -> TopEnd
    requires { K.limit out.old ≡ None }

    ensures cause { IsAnswered (F.files folder.old) (asks.Build (build_names_of names.now))
        (F.faults folder.old) (F.faults folder.new) (F.asked folder.old) (F.asked folder.new) result }
    ensures folder_count { (IsFileFault result → ⊥) → F.faults folder.new ≡ F.faults folder.old }
    ensures kept { F.files folder.new ≡ F.files folder.old }
    ensures build { BuildCommand (F.files folder.old) (build_names_of names.now) result
        (K.written out.old) (K.written out.new) }
    ensures out_count { RisesWhere (IsWriteFault result) (K.faults out.old) (K.faults out.new) }
    ensures out_still_unlimited { K.limit out.new ≡ None }
{
    match prepare(alloc, folder, names) {
        Ok(image) => write_image(alloc, &image, out),
        Err(end) => end,
    }
}

/// Reads the source and compiles it.
fn prepare<F: Folder>(
    alloc: Global,
    folder: &mut F,
    names: &BuildWords<'_>,
) -> Result<Image, TopEnd>
    ensures ready { IfOk result (λ image. BuildReady (F.files folder.old) (build_names_of names.now)
        (F.faults folder.old) (F.faults folder.new) (F.asked folder.old) (F.asked folder.new) image) }
    ensures refused { IfErr result (λ end.
        IsStopped (F.files folder.old) (asks.Build (build_names_of names.now))
        (F.faults folder.old) (F.faults folder.new) (F.asked folder.old) (F.asked folder.new) end) }
    ensures kept { F.files folder.new ≡ F.files folder.old }
{
    let source = open(alloc, folder, names.source, File::Source)?;
    build(alloc, source.as_slice())
}

/// Writes the file of an image, once it is whole.
fn write_image<K: Sink>(alloc: Global, image: &Image, out: &mut K) -> TopEnd
    requires { K.limit out.old ≡ None }

    ensures sends { SendsBytes result (K.written out.old) (K.written out.new) (bytes_of image.now) }
    ensures out_count { RisesWhere (IsWriteFault result) (K.faults out.old) (K.faults out.new) }
    ensures still_unlimited { K.limit out.new ≡ None }
{
    match image_bytes(alloc, image) {
        Ok(bytes) => match out.write(bytes.as_slice()) {
            Ok(()) => TopEnd::Done,
            Err(_) => TopEnd::WriteFault,
        },
        Err(OutOfMemory) => TopEnd::OutOfMemory,
    }
}
