//! The bytes of constants.
ghost use Rattle.std.specs.Prelude.{◌≡◌, ◌<◌, ◌*◌, ◌-◌, ◌^◌, ◌++◌, [], cond, length, replicate, IfOk, OnOk};
ghost use Rattle.std.specs.List.{AllByRecursion};
ghost use Rattle.orbis_core.specs.ByteOrder.{bytes_of};
ghost use Rattle.ir_code.specs.Lawful.{is_constant};
ghost use Rattle.codegen.specs.ImageCode.{constant_words};

use aegis_num::OutOfMemory;
use image_file::ConstantBytes;
use ir_code::Cell;
use regions::Class;
use std::alloc::Global;

/// The words of a cell, if it is a constant.
fn words_of(cell: &Cell) -> &[u32]
    ensures { result.now ≡ cond (is_constant cell.now.class) cell.now.first [] }
{
    match cell.class {
        Class::Constant => cell.first.as_slice(),
        _ => &[],
    }
}

/// The words of the constants, in order.
fn words_in(alloc: Global, cells: &[Cell]) -> Result<Vec<u32>, OutOfMemory>
    ensures { IfOk result (λ words. words.items ≡ constant_words cells.now) }
{
    let mut words = Vec::new(alloc);
    for cell in cells {
        words.extend_from_slice(words_of(cell))?;
    }
    Ok(words)
}

/// So many zeros at the end.
fn push_zeros(words: &mut Vec<u32>, count: usize) -> Result<(), OutOfMemory>
    ensures { OnOk result (words.new.items ≡ words.old.items ++ replicate count 0) }
{
    for _ in 0..count {
        words.push(0)?;
    }
    Ok(())
}

/// The bytes of some words, the greatest byte first.
fn bytes_of(alloc: Global, words: Vec<u32>) -> Result<Vec<u8>, OutOfMemory>
    ensures words { AllByRecursion (λ word. word < 2 ^ 32) words.items }
    ensures bytes { IfOk result (λ bytes. bytes.items ≡ bytes_of words.items) }
{
    let mut bytes = Vec::new(alloc);
    for word in words.as_slice() {
        bytes.extend_from_slice(&word.to_be_bytes())?;
    }
    Ok(bytes)
}

/// The constants of an image.
fn constants_of(bytes: Vec<u8>) -> ConstantBytes
    ensures value { result ≡ bytes.items }
    ensures bytes { AllByRecursion (λ byte. byte < 2 ^ 8) result }
{
    ConstantBytes::new(bytes)
}

/// The bytes of the constants in so many blocks, of which the last is filled with zeros.
pub fn constant_bytes(
    alloc: Global,
    cells: &[Cell],
    blocks: u32,
) -> Result<ConstantBytes, OutOfMemory>
    ensures value { IfOk result (λ constants. constants ≡ bytes_of (constant_words cells.now
        ++ replicate (16 * blocks - length (constant_words cells.now)) 0)) }
    ensures bytes { IfOk result (AllByRecursion (λ byte. byte < 2 ^ 8)) }
    ensures words { IfOk result (λ _. AllByRecursion (λ word. word < 2 ^ 32)
        (constant_words cells.now)) }
{
    let mut words = words_in(alloc, cells)?;
    let missing = (16 * blocks as usize).saturating_sub(words.len());
    push_zeros(&mut words, missing)?;
    Ok(constants_of(bytes_of(alloc, words)?))
}
