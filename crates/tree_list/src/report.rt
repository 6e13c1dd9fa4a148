//! What is said of a run.
use crate::play::Played;
use aegis_num::{Block, Place};
use anyhow::Result;
use hash_tree::Changed;
use off_chip::{Event, Mark, Trace};
use std::alloc::Global;

/// The digest of a program that was entered, and how a load ended.
pub(crate) fn entered_text(
    alloc: Global,
    digest: &[u8; 20],
    loaded: Result<(), Changed>,
) -> Result<String> {
    let mut text = String::new(alloc);
    for byte in digest {
        text.push_str(format!(in alloc; "{byte:02x}")?.as_str())?;
    }
    let end = match loaded {
        Ok(()) => format!(in alloc; " loaded")?,
        Err(changed) => format!(in alloc; " changed at {}", changed.event)?,
    };
    text.push_str(end.as_str())?;
    Ok(text)
}

/// How many loads and stores ended.
pub(crate) fn played_text(alloc: Global, played: Played) -> Result<String> {
    Ok(match played {
        Played::AsExpected => format!(in alloc; "as expected")?,
        Played::Wrong(turn) => format!(in alloc; "load {turn} is wrong")?,
        Played::Stopped(turn, changed) => {
            format!(in alloc; "load {turn} changed at {}", changed.event)?
        }
        Played::Full => format!(in alloc; "no room")?,
    })
}

// A read or a write of a block of the tree, with its number and its stamp.
fn event_text(alloc: Global, event: &Event) -> Result<String> {
    Ok(match event {
        Event::BlockWrite {
            at: Place::Tree(n),
            block,
        } => format!(in alloc; ", write {n} {}", block.stamp)?,
        Event::BlockRead {
            at: Place::Tree(n),
            block,
        } => format!(in alloc; ", read {n} {}", block.stamp)?,
        Event::Note(mark) => format!(in alloc; ", {mark:?}")?,
        _ => format!(in alloc; ", another event")?,
    })
}

/// A text, and after it the events of a trace.
pub(crate) fn with_events(alloc: Global, mut text: String, trace: &Trace) -> Result<String> {
    for event in trace.events() {
        text.push_str(event_text(alloc, event)?.as_str())?;
    }
    Ok(text)
}

// The number of the first read of the tree that does not give the block that was written last.
fn first_unfaithful(alloc: Global, trace: &Trace) -> Result<Option<usize>> {
    let mut written: Vec<Option<Block>> = vec![in alloc; None; 400]?;
    for (number, event) in trace.events().iter().enumerate() {
        match event {
            Event::BlockWrite {
                at: Place::Tree(n),
                block,
            } => {
                if let Some(place) = written.get_mut(*n as usize) {
                    *place = Some(*block);
                }
            }
            Event::BlockRead {
                at: Place::Tree(n),
                block,
            } => {
                if let Some(Some(last)) = written.get(*n as usize)
                    && last != block
                {
                    return Ok(Some(number));
                }
            }
            _ => {}
        }
    }
    Ok(None)
}

// How many events write a block, and how many note that one was dropped. Each other event of a run reads a block.
fn writes_and_drops(trace: &Trace) -> (usize, usize) {
    let writes = trace
        .events()
        .iter()
        .filter(|event| matches!(event, Event::BlockWrite { .. }))
        .count();
    let drops = trace
        .events()
        .iter()
        .filter(|event| matches!(event, Event::Note(Mark::Drop(_))))
        .count();
    (writes, drops)
}

/// A text, and after it how many events a trace has, and its first read that does not give the block that was written last.
pub(crate) fn with_faith(alloc: Global, mut text: String, trace: &Trace) -> Result<String> {
    let events = trace.events().len();
    let (writes, drops) = writes_and_drops(trace);
    let counts = format!(in alloc; ", {events} events with {writes} writes and {drops} drops")?;
    text.push_str(counts.as_str())?;
    let end = match first_unfaithful(alloc, trace)? {
        Some(number) => format!(in alloc; ", read {number} is not of the last write")?,
        None => format!(in alloc; ", all reads are of the last writes")?,
    };
    text.push_str(end.as_str())?;
    Ok(text)
}
