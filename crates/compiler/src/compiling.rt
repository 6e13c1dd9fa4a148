//! Checked programs made into images.
ghost use Rattle.std.specs.Prelude.{◌≡◌, ◌⊎◌, Some, None, Err, IfOk, IsOkUnless};
ghost use Rattle.c_resolver.specs.Resolving.{plain_program};
ghost use Rattle.lowering.specs.Lowering.{lowered};
ghost use Rattle.region_plan.specs.declared.PlanError.{PlanError as SomeFault};
ghost use Rattle.image_file.specs.ImageTable.{HoldsWords};
ghost use Rattle.codegen.specs.EmitFaults.{emit_error};
ghost use Rattle.codegen.specs.EmittedImage.{IsImageOf};
ghost use Rattle.compiler.specs.CompilerTheorem.{IsCompiled};
ghost use Rattle.compiler.specs.MemoryUse.{source_fault};

use c_types::Checked;
use codegen::{EmitError, emit};
use image_file::Image;
use secure_split::split;
use std::alloc::Global;

/// The image of a program. On each input and for each list of words from outside the ideal machine does on it what the program
/// means: with the words of shared and of logged variables from outside, with those of shared variables alone, and with none. It
/// comes to the same end with the same bytes, shared writes and counts, in at most 32 steps for each unit of work; after any
/// number of steps it has come to a front of what the program does with 64 loop turns for each step and 64 more; no instruction
/// is refused, and no byte access goes to an open address. It has at most 64 words of code for each node of the program and 64
/// more.
///
/// # Errors
///
/// `Plan` with the first limit that the program passes: data blocks, then log blocks, then shared bytes.
pub fn compile(alloc: Global, p: &Checked) -> Result<Image, EmitError>
    ensures compiled { IfOk result (λ image. IsCompiled p.now image) }
    ensures image { IfOk result (λ image. IsImageOf (lowered (plain_program p.now)) image) }
    ensures words { IfOk result HoldsWords }

    // A limit that is passed is told. Else only memory can be wanting.
    ensures full { (fault : SomeFault) → source_fault p.now ≡ Some fault
        → (result ≡ Err (emit_error fault)) ⊎ (result ≡ Err EmitError.OutOfMemory) }
    ensures fits { source_fault p.now ≡ None → IsOkUnless result EmitError.OutOfMemory }
{
    let ir = split(alloc, p)?;
    emit(alloc, &ir)
}
