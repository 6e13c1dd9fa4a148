//! Layouts, and what lies where in them.
ghost use Rattle.std.specs.Prelude.{◌≡◌, ◌+◌, ◌*◌, ◌^◌, ◌<◌, true, false, length, take, Some, None, Err, IfOk, IsOkUnless};
ghost use Rattle.regions.specs.declared.rights.Class.TheVariants.{Code};
ghost use Rattle.ir_code.specs.Lawful.{all_hold, is_code, is_data};
ghost use Rattle.region_plan.specs.declared.error.PlanError.{PlanError as SomeFault};
ghost use Rattle.region_plan.specs.Homes.{HasHomes, HasSizes, WordsAreAligned, WordsAreApart, WordsKeepClasses, blocks_for, first_address};
ghost use Rattle.region_plan.specs.PlanFaults.{fault_of, plan_fault};
ghost use Rattle.region_plan.specs.Counted.{HasCounts, IsWithin, told_fault};

use crate::counts::{WordCounts, counts_of};
use crate::error::PlanError;
use crate::homes::Homes;
use ir_code::{Cell, Ir};
use regions::{
    BLOCK_BYTES, Class, LOG_START, Layout, MAX_DATA_BLOCKS, MAX_LOG_BLOCKS, MAX_SHARED_BYTES,
    SHARED_START, TREE_START,
};
use std::alloc::Global;

/// How much memory a program has of each class, and where its cells lie in it.
#[derive(Debug, Drop)]
pub struct Placement {
    /// The blocks of each class.
    pub layout: Layout,
    /// The first address of each cell.
    pub homes: Homes,
}

/// How many blocks so many words take.
fn blocks_of(words: u64) -> u64
    requires { words < 2 ^ 61 }
    ensures { result ≡ blocks_for words }
{
    (4 * words).div_ceil(BLOCK_BYTES as u64)
}

/// The layout with so many words of each class and so many blocks of code.
fn layout_for(counts: &WordCounts, code_blocks: u32) -> Result<Layout, PlanError>
    requires { IsWithin counts.now (2 ^ 28) }
    ensures sizes { IfOk result (λ layout. HasCounts layout counts.now code_blocks) }
    ensures fault { told_fault result ≡ fault_of
        (blocks_for counts.now.verified + blocks_for counts.now.private
        + blocks_for counts.now.constants + code_blocks)
        (blocks_for counts.now.logged) (4 * counts.now.open) }
{
    let verified = blocks_of(counts.verified);
    let private = blocks_of(counts.private);
    let constants = blocks_of(counts.constants);
    let blocks = verified + private + constants + code_blocks as u64;
    if blocks > MAX_DATA_BLOCKS as u64 {
        return Err(PlanError::TreeFull { blocks });
    }
    let log = blocks_of(counts.logged);
    if log > MAX_LOG_BLOCKS as u64 {
        return Err(PlanError::LogFull { blocks: log });
    }
    let shared = 4 * counts.open;
    if shared > MAX_SHARED_BYTES as u64 {
        return Err(PlanError::OpenFull { bytes: shared });
    }
    Ok(Layout {
        verified: verified as u32,
        private: private as u32,
        constants: constants as u32,
        code: code_blocks,
        log: log as u32,
        shared: shared as u32,
    })
}

/// The address at which the first cell of a class lies.
fn start_for(layout: &Layout, class: Class) -> u32
    ensures { result ≡ first_address layout.now class }
{
    match class {
        Class::Open => SHARED_START,
        Class::Verified => TREE_START,
        Class::Private => TREE_START + BLOCK_BYTES * layout.verified,
        Class::Constant => TREE_START + BLOCK_BYTES * (layout.verified + layout.private),
        Class::Code => {
            TREE_START + BLOCK_BYTES * (layout.verified + layout.private + layout.constants)
        }
        Class::Logged => LOG_START,
    }
}

/// The first address of each cell.
fn homes_in(alloc: Global, layout: &Layout, ir: &Ir, code_blocks: u32) -> Result<Homes, PlanError>
    requires few { length ir.now.cells < 2 ^ 28 }
    requires data { all_hold is_data ir.now.cells ≡ true }
    requires sizes { HasSizes layout.now ir.now code_blocks }
    ensures homes { IfOk result (λ homes. HasHomes layout.now ir.now homes) }
    ensures only { IsOkUnless result PlanError.OutOfMemory }
{
    let mut homes = Vec::new(alloc);
    let mut before = WordCounts::new();
    for cell in ir.cells.as_slice() {
        homes.push(start_for(layout, cell.class) + 4 * before.count_of(cell.class) as u32)?;
        before.add(cell.class, cell.words);
    }
    Ok(Homes::new(homes))
}

/// The layout and the homes of a program's cells, with so many blocks of code. The cells of a class lie in their order, word
/// after word, from the first address of the class on: shared ones from `SHARED_START`, logged ones from `LOG_START`, and
/// verified ones, private ones and constants one after the other from `TREE_START`, each class from a new block on.
///
/// # Errors
///
/// `TreeFull` where more than `MAX_DATA_BLOCKS` blocks are needed under the tree, else `LogFull` where more than
/// `MAX_LOG_BLOCKS` are needed for logged cells, else `OpenFull` where shared cells need more than `MAX_SHARED_BYTES` bytes.
pub fn plan(alloc: Global, ir: &Ir, code_blocks: u32) -> Result<Placement, PlanError>
    requires few { length ir.now.cells < 2 ^ 28 }
    requires data { all_hold is_data ir.now.cells ≡ true }

    // Where the cells lie.
    ensures sizes { IfOk result (λ placed. HasSizes placed.layout ir.now code_blocks) }
    ensures homes { IfOk result (λ placed. HasHomes placed.layout ir.now placed.homes) }

    // No two words share an address, and each is one of its class where a word may lie.
    ensures apart { IfOk result (λ placed. WordsAreApart placed.layout ir.now) }
    ensures classes { IfOk result (λ placed. WordsKeepClasses placed.layout ir.now) }
    ensures aligned { IfOk result (λ placed. WordsAreAligned placed.layout ir.now) }

    // A limit that is passed is told, the first one of them. Else only memory can be wanting.
    ensures full { (fault : SomeFault) → plan_fault ir.now.cells code_blocks ≡ Some fault
        → result ≡ Err fault }
    ensures fits { plan_fault ir.now.cells code_blocks ≡ None
        → IsOkUnless result PlanError.OutOfMemory }
{
    let counts = counts_of(ir.cells.as_slice());
    let layout = layout_for(&counts, code_blocks)?;
    let homes = homes_in(alloc, &layout, ir, code_blocks)?;
    Ok(Placement { layout, homes })
}
