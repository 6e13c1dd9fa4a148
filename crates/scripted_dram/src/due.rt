//! The changes of a script that are due.
ghost use Rattle.std.specs.Prelude.{◌≡◌, ◌+◌, ◌<◌, ◌^◌, true, length, drop, if◌then◌else◌};
ghost use Rattle.adversary_script.specs.ScriptRules.{KeepsScriptRules, is_in_range};
ghost use Rattle.scripted_dram.specs.ScriptMemory.{changes_at, is_at_start};
ghost use Rattle.scripted_dram.specs.DueChanges.{IsPassed, goes_on, is_above, is_due, awaited};
ghost use Rattle.scripted_dram.specs.StoredStates.{all_stored, store_changed};

use crate::storage::Storage;
use adversary_script::{Change, When};

/// What the number of a change counts.
#[derive(Clone, Copy)]
pub enum Count {
    /// The events before the change.
    Events,
    /// The suspensions before the change.
    Suspensions,
}

// The number of a change that waits for a count.
fn awaited(count: Count, when: When) -> Option<u32>
    ensures { result ≡ awaited count when }
{
    match (count, when) {
        (Count::Events, When::At(n)) | (Count::Suspensions, When::Suspend(n)) => Some(n),
        _ => None,
    }
}

// Whether a change waits for a greater count.
fn is_above(count: Count, when: When, k: u64) -> bool
    ensures { result ≡ is_above k (awaited count when) }
{
    match awaited(count, when) {
        Some(n) => u64::from(n) > k,
        None => false,
    }
}

// Whether a change is due at a count.
fn is_due(count: Count, when: When, k: u64) -> bool
    ensures { result ≡ is_due count k when }
{
    match awaited(count, when) {
        Some(n) => n as u64 == k,
        None => false,
    }
}

// Whether the change at the cursor may be due.
fn goes_on(changes: &[Change], cursor: usize, count: Count, k: u64) -> bool
    ensures value { result ≡ goes_on count k (drop cursor changes.now) }
    ensures inside { result ≡ true → cursor < length changes.now }
{
    cursor < changes.len() && !is_above(count, changes[cursor].when, k)
}

// Does a change if it is due.
fn do_if_due(storage: &mut Storage, change: &Change, count: Count, k: u64)
    requires { is_in_range change.now.what ≡ true }
    ensures { storage.new ≡ (if is_due count k change.now.when
        then store_changed change.now.what storage.old else storage.old) }
{
    if is_due(count, change.when, k) {
        storage.change(&change.what);
    }
}

/// Does the changes that are due at a count, in order, and answers where the cursor stands then. It goes over
/// changes that were done or that wait for the other count once.
pub fn do_due(
    storage: &mut Storage,
    changes: &[Change],
    cursor: usize,
    count: Count,
    k: u64,
) -> usize
    requires rules { KeepsScriptRules changes.now }
    requires passed { IsPassed count k changes.now cursor }
    ensures done { storage.new ≡ all_stored (changes_at (is_due count k) changes.now) storage.old }
    ensures passed { IsPassed count (k + 1) changes.now result }
{
    let mut next = cursor;
    'due: while goes_on(changes, next, count, k) {
        do_if_due(storage, &changes[next], count, k);
        next += 1;
    }
    next
}

// Whether a change is done at the start.
fn is_at_start(when: When) -> bool
    ensures { result ≡ is_at_start when }
{
    matches!(when, When::Start)
}

// Does a change if it is done at the start.
fn do_if_at_start(storage: &mut Storage, change: &Change)
    requires { is_in_range change.now.what ≡ true }
    ensures { storage.new ≡ (if is_at_start change.now.when
        then store_changed change.now.what storage.old else storage.old) }
{
    if is_at_start(change.when) {
        storage.change(&change.what);
    }
}

/// Does the changes that are done at the start, in order.
pub fn do_at_start(storage: &mut Storage, changes: &[Change])
    requires { KeepsScriptRules changes.now }
    ensures { storage.new ≡ all_stored (changes_at is_at_start changes.now) storage.old }
{
    for i in 0..changes.len() {
        do_if_at_start(storage, &changes[i]);
    }
}
