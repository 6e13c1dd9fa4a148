//! What is said of a run.

use aegis_machine::{End, Turn};
use aegis_num::{Block, Place};
use anyhow::Result;
use block_hash::block_string;
use off_chip::{Event, Mark, Trace, Who};
use sha1::Sha1;
use stamp_log::LogCause;
use std::alloc::Global;

// The kinds of events.
#[derive(Clone, Copy, Debug, PartialEq, Eq)]
enum Kind {
    BlockRead,
    BlockWrite,
    WordRead,
    WordWrite,
    Enter,
    RetireSecure,
    RetireUntrusted,
    Drop,
    CheckStart,
    CheckPassed,
    Sent,
    Suspend,
    Resume,
}

// All of them, in the order in which they are told.
const KINDS: [Kind; 13] = [
    Kind::BlockRead,
    Kind::BlockWrite,
    Kind::WordRead,
    Kind::WordWrite,
    Kind::Enter,
    Kind::RetireSecure,
    Kind::RetireUntrusted,
    Kind::Drop,
    Kind::CheckStart,
    Kind::CheckPassed,
    Kind::Sent,
    Kind::Suspend,
    Kind::Resume,
];

// The kind of a mark.
fn kind_of_mark(mark: &Mark) -> Kind {
    match mark {
        Mark::Enter => Kind::Enter,
        Mark::Retire(Who::Secure) => Kind::RetireSecure,
        Mark::Retire(Who::Untrusted) => Kind::RetireUntrusted,
        Mark::Drop(_) => Kind::Drop,
        Mark::CheckStart => Kind::CheckStart,
        Mark::CheckPassed => Kind::CheckPassed,
        Mark::Sent(_) => Kind::Sent,
        Mark::Suspend => Kind::Suspend,
        Mark::Resume => Kind::Resume,
    }
}

// The kind of an event.
fn kind_of(event: &Event) -> Kind {
    match event {
        Event::BlockRead { .. } => Kind::BlockRead,
        Event::BlockWrite { .. } => Kind::BlockWrite,
        Event::WordRead { .. } => Kind::WordRead,
        Event::WordWrite { .. } => Kind::WordWrite,
        Event::Note(mark) => kind_of_mark(mark),
    }
}

// A text, and after it how many events of each kind there are.
fn with_counts(mut text: String, alloc: Global, events: &[Event]) -> Result<String> {
    let whole = format!(in alloc; ", {} events:", events.len())?;
    text.push_str(whole.as_str())?;
    for kind in KINDS {
        let count = events.iter().filter(|event| kind_of(event) == kind).count();
        if count > 0 {
            text.push_str(format!(in alloc; " {kind:?} {count}")?.as_str())?;
        }
    }
    Ok(text)
}

// The number of the read that a run names as the cause of its end, if it names one.
fn cause_of(turn: Turn) -> Option<u64> {
    match turn {
        Turn::Over(End::AbortTree { event, .. }) => Some(event),
        Turn::Over(
            End::AbortLog {
                cause: LogCause::Future { event },
                ..
            },
        ) => Some(event),
        _ => None,
    }
}

// A place by its class, where the first blocks of the tree are nodes.
fn place_text(alloc: Global, nodes: u32, at: Place) -> Result<String> {
    Ok(match at {
        Place::Tree(block) if block < nodes => format!(in alloc; "node {block}")?,
        Place::Tree(block) => format!(in alloc; "data {}", block - nodes)?,
        Place::Log(block) => format!(in alloc; "log {block}")?,
    })
}

// How a run ended, and the block whose read it names as the cause of it.
fn end_text(alloc: Global, nodes: u32, turn: Turn, events: &[Event]) -> Result<String> {
    let mut text = format!(in alloc; "{turn:?}")?;
    if let Some(number) = cause_of(turn)
        && let Some(Event::BlockRead { at, .. }) = events.get(number as usize)
    {
        text.push_str(" at ")?;
        text.push_str(place_text(alloc, nodes, *at)?.as_str())?;
    }
    Ok(text)
}

// A text, and after it bytes in hexadecimal.
fn with_bytes(mut text: String, alloc: Global, bytes: &[u8]) -> Result<String> {
    for byte in bytes {
        text.push_str(format!(in alloc; "{byte:02x}")?.as_str())?;
    }
    Ok(text)
}

// A text, and after it the lengths of the pieces that were sent.
fn with_pieces(mut text: String, alloc: Global, events: &[Event]) -> Result<String> {
    for event in events {
        if let Event::Note(Mark::Sent(length)) = event {
            text.push_str(format!(in alloc; " {length}")?.as_str())?;
        }
    }
    Ok(text)
}

// The string of an event with a block: the kind, and after it the block as the digests of the tree take it.
fn add_block(hasher: &mut Sha1, kind: Kind, at: Place, block: &Block) {
    let (tag, number) = match at {
        Place::Tree(number) => (b'T', number),
        Place::Log(number) => (b'L', number),
    };
    hasher.update(&[kind as u8]);
    hasher.update(&block_string(tag, number, block));
}

// The string of an event with a word: the kind, who it is, the address and the word.
fn add_word(hasher: &mut Sha1, kind: Kind, by: Who, at: u32, word: u32) {
    let who = match by {
        Who::Secure => b'S',
        Who::Untrusted => b'U',
    };
    hasher.update(&[kind as u8, who]);
    hasher.update(&at.to_be_bytes());
    hasher.update(&word.to_be_bytes());
}

// The string of a mark: the kind, and after it the block that was dropped or the length of the piece that was sent.
fn add_mark(hasher: &mut Sha1, kind: Kind, mark: &Mark) {
    hasher.update(&[kind as u8]);
    match mark {
        Mark::Drop(Place::Tree(number)) => {
            hasher.update(b"T");
            hasher.update(&number.to_be_bytes());
        }
        Mark::Drop(Place::Log(number)) => {
            hasher.update(b"L");
            hasher.update(&number.to_be_bytes());
        }
        Mark::Sent(length) => hasher.update(&length.to_be_bytes()),
        _ => {}
    }
}

// The SHA-1 digest of the strings of all events.
fn digest_of(events: &[Event]) -> [u8; 20] {
    let mut hasher = Sha1::new();
    for event in events {
        let kind = kind_of(event);
        match event {
            Event::BlockRead { at, block } | Event::BlockWrite { at, block } => {
                add_block(&mut hasher, kind, *at, block);
            }
            Event::WordRead { by, at, word } | Event::WordWrite { by, at, word } => {
                add_word(&mut hasher, kind, *by, *at, *word);
            }
            Event::Note(mark) => add_mark(&mut hasher, kind, mark),
        }
    }
    hasher.finalize()
}

/// How a run ended, what it sent, and what stands in its trace. The first `nodes` blocks of the tree have no data.
pub(crate) fn report(
    alloc: Global,
    nodes: u32,
    turn: Turn,
    sent: &[u8],
    trace: &Trace,
) -> Result<String> {
    let events = trace.events();
    let mut text = end_text(alloc, nodes, turn, events)?;
    text.push_str(", sent ")?;
    let mut text = with_bytes(text, alloc, sent)?;
    text.push_str(" in")?;
    let text = with_pieces(text, alloc, events)?;
    let mut text = with_counts(text, alloc, events)?;
    text.push_str(", digest ")?;
    with_bytes(text, alloc, &digest_of(events))
}
