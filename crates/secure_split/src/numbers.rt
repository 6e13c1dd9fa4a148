//! The numbers of cells, labels and operations, which have 32 bits. Where these are too few, memory is too.
ghost use Rattle.std.specs.Prelude.{◌≡◌, ◌+◌, IfOk};

use aegis_num::OutOfMemory;

/// The number after this one.
pub fn next(n: u32) -> Result<u32, OutOfMemory>
    ensures { IfOk result (λ m. m ≡ n + 1) }
{
    sum(n, 1)
}

/// The sum of two numbers.
pub fn sum(a: u32, b: u32) -> Result<u32, OutOfMemory>
    ensures { IfOk result (λ m. m ≡ a + b) }
{
    match a.checked_add(b) {
        None => Err(OutOfMemory),
        Some(m) => Ok(m),
    }
}

/// A count as a number.
pub fn number(n: usize) -> Result<u32, OutOfMemory>
    ensures { IfOk result (λ m. m ≡ n) }
{
    match u32::try_from(n) {
        Err(_) => Err(OutOfMemory),
        Ok(m) => Ok(m),
    }
}
