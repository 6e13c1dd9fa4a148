//! Flat code made into an image.
ghost use Rattle.std.specs.Prelude.{◌≡◌, ◌<◌, ◌≤◌, ◌+◌, ◌-◌, ◌^◌, ◌++◌, ℕ, Bool, true, length, map, nat_lt, replicate, slice_index, Some, None, Err, IfOk, IsOkUnless, OnOk};
ghost use Rattle.std.specs.List.{AllByRecursion};
ghost use Rattle.aegis_num.specs.declared.limits.TheConstants.{MAX_PARAMETERS};
ghost use Rattle.orbis_word.specs.Reading.{instruction_in};
ghost use Rattle.orbis_word.specs.declared.Instr.TheVariants.{Nop as Nothing};
ghost use Rattle.ir_code.specs.Lawful.{all_hold, named_by, HasForm, IsLawful};
ghost use Rattle.ir_code.specs.OpTable.{slots_of};
ghost use Rattle.region_plan.specs.declared.error.PlanError.{PlanError as SomeFault};
ghost use Rattle.region_plan.specs.PlanFaults.{plan_fault};
ghost use Rattle.image_file.specs.ImageTable.{static_bytes, HoldsWords};
ghost use Rattle.orbis_core.specs.Soundness.{IsSound};
ghost use Rattle.regions.specs.LooseClasses.{shared_and_logged_loose};
ghost use Rattle.regions.specs.declared.Class.{Class as SomeClass};
ghost use Rattle.codegen.specs.ImageCode.{code_blocks, code_from, code_size, start_size};
ghost use Rattle.codegen.specs.OpInstructions.{start_code};
ghost use Rattle.codegen.specs.EmittedImage.{IsImageOf, MeansCode};
ghost use Rattle.codegen.specs.EmitFaults.{emit_error};
ghost use Rattle.codegen.specs.Numbers.{sites_in, AreLow};

use crate::code::Code;
use crate::constants::constant_bytes;
use crate::error::EmitError;
use crate::sites::Sites;
use crate::tables::{code_size, labels_of, size_of};
use aegis_num::OutOfMemory;
use image_file::{BLOCK_WORDS, CodeWords, Image};
use ir_code::{Ir, Op};
use orbis_word::Instr;
use region_plan::plan;
use std::alloc::Global;

/// How many instructions the start has.
const START_SIZE: u32 = 11;

/// The code of operations.
fn code_for(alloc: Global, sites: &Sites, ops: &[Op]) -> Result<Code, OutOfMemory>
    requires low { AreLow sites.now.homes.now sites.now.labels.now }
    requires near { code_size ops.now + 3 < 2 ^ 25 }
    requires slots { all_hold (λ slot. nat_lt slot MAX_PARAMETERS) (named_by slots_of ops.now) ≡ true }
    ensures { IfOk result (λ code. code ≡ map Some (code_from
        (sites_in sites.now.homes.now sites.now.labels.now) 0 ops.now)) }
{
    let mut code = Code::new(alloc);
    let mut number = 0;
    for o in ops {
        code.operation(sites, number, *o)?;
        number += size_of(*o);
    }
    Ok(code)
}

/// So many instructions that do nothing at the end.
fn push_nothing(code: &mut Code, count: u32) -> Result<(), OutOfMemory>
    ensures { OnOk result (code.new ≡ code.old ++ map Some (replicate count (Nothing 0))) }
{
    for _ in 0..count {
        code.push(Instr::Nop { k: 0 })?;
    }
    Ok(())
}

/// The code of an image.
fn words_of(words: Vec<u32>) -> CodeWords
    ensures value { result ≡ words.items }
    ensures words { AllByRecursion (λ word. word < 2 ^ 32) result }
{
    CodeWords::new(words)
}

/// The code of an image of so many words, where the operations become `size` instructions and the run goes on from its
/// start at `entry`.
fn image_code(
    alloc: Global,
    sites: &Sites,
    ops: &[Op],
    size: u32,
    entry: u32,
    words: u32,
) -> Result<CodeWords, OutOfMemory>
    requires low { AreLow sites.now.homes.now sites.now.labels.now }
    requires near { code_size ops.now + start_size < 2 ^ 25 }
    requires slots { all_hold (λ slot. nat_lt slot MAX_PARAMETERS) (named_by slots_of ops.now) ≡ true }
    requires size { size ≡ code_size ops.now }
    requires entry { entry ≤ size }
    requires room { size + start_size ≤ words }
    ensures code { IfOk result (λ code. map instruction_in code ≡ map Some (code_from
        (sites_in sites.now.homes.now sites.now.labels.now) 0 ops.now
        ++ (start_code size entry ++ replicate (words - (size + start_size)) (Nothing 0)))) }
    ensures words { IfOk result (AllByRecursion (λ word. word < 2 ^ 32)) }
{
    let mut code = code_for(alloc, sites, ops)?;
    code.start(size, entry)?;
    push_nothing(&mut code, words - (size + START_SIZE))?;
    Ok(words_of(code.into_words()))
}

/// The image of flat code.
///
/// # Errors
///
/// `Plan` with the limit that is passed, where the cells and the code have no place.
pub fn emit(alloc: Global, ir: &Ir) -> Result<Image, EmitError>
    requires { HasForm ir.now }
    ensures image { IfOk result (IsImageOf ir.now) }
    ensures words { IfOk result HoldsWords }

    // Where the code is lawful it does what the code means, and it is sound.
    ensures meaning { IfOk result (λ image. (loose : SomeClass → Bool) → IsLawful loose ir.now
        → MeansCode loose ir.now image) }
    ensures sound { IfOk result (λ image. IsLawful shared_and_logged_loose ir.now
        → IsSound image.layout (static_bytes image) image.entry) }

    // A limit that is passed is told. Else only memory can be wanting.
    ensures full { (fault : SomeFault) → plan_fault ir.now.cells (code_blocks ir.now) ≡ Some fault
        → result ≡ Err (emit_error fault) }
    ensures fits { plan_fault ir.now.cells (code_blocks ir.now) ≡ None
        → IsOkUnless result EmitError.OutOfMemory }
{
    let ops = ir.ops.as_slice();
    let size = code_size(ops);
    let placement = plan(alloc, ir, (size + START_SIZE + 15) / BLOCK_WORDS)?;
    let layout = placement.layout;
    let labels = labels_of(alloc, ops, size)?;
    let sites = Sites {
        homes: placement.homes.as_slice(),
        labels: &labels,
    };
    let entry = code_size(&ops[..ir.entry as usize]);
    let code = image_code(alloc, &sites, ops, size, entry, BLOCK_WORDS * layout.code)?;
    let constants = constant_bytes(alloc, ir.cells.as_slice(), layout.constants)?;
    Ok(Image {
        layout,
        entry: size,
        constants,
        code,
    })
}
