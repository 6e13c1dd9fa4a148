//! The address map: open words first, data blocks from `TREE_START` and log blocks from `LOG_START`, both of
//! 64 bytes. The map is this project's own.
ghost use Rattle.std.specs.Prelude.{◌≡◌, ◌↔◌, IfSome};
ghost use Rattle.regions.specs.Addresses.{block_start, class_at, data_block_at, HasBlock, IsUnderTree, LiesIn};
ghost use Rattle.regions.specs.declared.rights.Class.{Class as SomeClass};

use crate::layout::Layout;
use crate::rights::Class;

/// The first address after the open ones, which begin at 0.
pub const OPEN_END: u32 = 0x1_0000;

/// The address of data block 0. Data block d is at `TREE_START` + 64d.
pub const TREE_START: u32 = 0x1000_0000;

/// The address of log block 0. Log block l is at `LOG_START` + 64l.
pub const LOG_START: u32 = 0x2000_0000;

/// The open address at which untrusted code starts.
pub const UNTRUSTED_START: u32 = 0x2000;

/// The open address at which shared variables start.
pub const SHARED_START: u32 = 0x8000;

/// How many bytes a block has.
pub const BLOCK_BYTES: u32 = 64;

/// How many bytes a block has off chip: 64 of payload and 8 of its stamp.
pub const STORED_BLOCK_BYTES: usize = 72;

/// The class of an address, if it belongs to one. All bytes of a block have its class.
#[tactic(auto, unfolding(crate::specs::Addresses::class_at))]
pub fn class_of(layout: &Layout, at: u32) -> Option<Class>
    ensures class { result ≡ class_at layout.now at }

    // A class has the addresses from its start up to its end. No two classes share one, and the addresses
    // of one block have one class.
    ensures range { (class : SomeClass) → (result ≡ Some class) ↔ LiesIn layout.now class at }
    ensures block { IfSome result (λ class. HasBlock layout.now class at) }
    ensures whole { IsUnderTree at → result ≡ class_at layout.now (block_start (data_block_at at)) }
{
    if at < OPEN_END {
        Some(Class::Open)
    } else if at < TREE_START {
        None
    } else if at < LOG_START {
        data_class(layout, at)
    } else if (at - LOG_START) / BLOCK_BYTES < layout.log {
        Some(Class::Logged)
    } else {
        None
    }
}

// The class of an address where data blocks may lie.
#[tactic(auto, unfolding(crate::specs::Addresses::class_at))]
fn data_class(layout: &Layout, at: u32) -> Option<Class>
    requires { IsUnderTree at }
    ensures { result ≡ class_at layout.now at }
{
    let block = (at - TREE_START) / BLOCK_BYTES;
    let private_start = layout.verified;
    let constant_start = private_start + layout.private;
    let code_start = constant_start + layout.constants;
    if block < private_start {
        Some(Class::Verified)
    } else if block < constant_start {
        Some(Class::Private)
    } else if block < code_start {
        Some(Class::Constant)
    } else if block < code_start + layout.code {
        Some(Class::Code)
    } else {
        None
    }
}
