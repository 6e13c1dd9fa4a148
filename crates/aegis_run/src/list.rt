//! The command `list`.
ghost use Rattle.std.specs.Prelude.{◌≡◌, None, IfOk, IfErr};
ghost use Rattle.aegis_words.specs.CommandTable as asks;
ghost use Rattle.aegis_words.specs.KeptWords.{list_names_of};
ghost use Rattle.aegis_run.specs.Answers.{IsFileFault, IsWriteFault, RisesWhere};
ghost use Rattle.aegis_run.specs.Causes.{IsAnswered};
ghost use Rattle.aegis_run.specs.ListCommand.{ListCommand};
ghost use Rattle.aegis_run.specs.FilesRead.{ImageCause, IsImageText, IsStopped, ListReady, SendsListing};

use crate::ends::TopEnd;
use crate::files::open;
use aegis_edge::{Folder, Sink};
use aegis_num::OutOfMemory;
use aegis_words::{File, ListWords};
use image_file::{Image, read_image};
use orbis_word::listing;
use std::alloc::Global;

/// Lists the code of an image, where its file allows it.
pub fn answer_list<F: Folder, K: Sink>(
    alloc: Global,
    names: &ListWords<'_>,
    folder: &mut F,
    out: &mut K,
) -> TopEnd
    requires { K.limit out.old ≡ None }

    ensures cause { IsAnswered (F.files folder.old) (asks.Listing (list_names_of names.now))
        (F.faults folder.old) (F.faults folder.new) (F.asked folder.old) (F.asked folder.new) result }
    ensures folder_count { (IsFileFault result → ⊥) → F.faults folder.new ≡ F.faults folder.old }
    ensures kept { F.files folder.new ≡ F.files folder.old }
    ensures list { ListCommand (F.files folder.old) (list_names_of names.now) result
        (K.written out.old) (K.written out.new) }
    ensures out_count { RisesWhere (IsWriteFault result) (K.faults out.old) (K.faults out.new) }
    ensures out_still_unlimited { K.limit out.new ≡ None }
{
    match prepare(alloc, folder, names) {
        Ok(image) => write_listing(alloc, &image, out),
        Err(end) => end,
    }
}

/// Reads the image, where its file is one.
fn prepare<F: Folder>(alloc: Global, folder: &mut F, names: &ListWords<'_>) -> Result<Image, TopEnd>
    ensures ready { IfOk result (λ image. ListReady (F.files folder.old) (list_names_of names.now)
        (F.faults folder.old) (F.faults folder.new) (F.asked folder.old) (F.asked folder.new) image) }
    ensures refused { IfErr result (λ end.
        IsStopped (F.files folder.old) (asks.Listing (list_names_of names.now))
        (F.faults folder.old) (F.faults folder.new) (F.asked folder.old) (F.asked folder.new) end) }
    ensures kept { F.files folder.new ≡ F.files folder.old }
{
    let text = open(alloc, folder, names.image, File::Image)?;
    image_in(alloc, text.as_slice())
}

/// The image whose file a text is.
fn image_in(alloc: Global, text: &[u8]) -> Result<Image, TopEnd>
    ensures read { IfOk result (IsImageText text.now) }
    ensures refused { IfErr result (ImageCause text.now) }
{
    match read_image(alloc, text) {
        Ok(image) => Ok(image),
        Err(error) => Err(TopEnd::from(error)),
    }
}

/// Writes the listing of the code of an image, once it is whole.
fn write_listing<K: Sink>(alloc: Global, image: &Image, out: &mut K) -> TopEnd
    requires { K.limit out.old ≡ None }

    ensures sends { SendsListing result (K.written out.old) (K.written out.new) image.now.code }
    ensures out_count { RisesWhere (IsWriteFault result) (K.faults out.old) (K.faults out.new) }
    ensures still_unlimited { K.limit out.new ≡ None }
{
    match listing(alloc, image.code.as_slice()) {
        Ok(lines) => match out.write(lines.as_slice()) {
            Ok(()) => TopEnd::Done,
            Err(_) => TopEnd::WriteFault,
        },
        Err(OutOfMemory) => TopEnd::OutOfMemory,
    }
}
