//! The change that a line makes.
ghost use Rattle.std.specs.Prelude.{◌≡◌};
ghost use Rattle.adversary_script.specs.ScriptGrammar.{target_of, block as block_target, moment as when_of, deed, change, fields_say, line_says};
ghost use Rattle.adversary_script.specs.FormMeanings.{block_of, moment_of, change_of, line_meant, texts, Gives};

use crate::change::{Change, Target, What, When};
use crate::fault::Fault;
use crate::fields::{are_line_bytes, bytes, fields_of, number};
use crate::form::{Block, Form, Kind, Line, Moment, line_form};
use regions::UNTRUSTED_START;
use std::alloc::Global;

/// The block of a kind with a number.
fn target_of(kind: Kind, n: u32) -> Target
    ensures { result ≡ target_of kind n }
{
    match kind {
        Kind::Data => Target::Data(n),
        Kind::Node => Target::Node(n),
        Kind::Text => Target::Text(n),
        Kind::Log => Target::Log(n),
    }
}

/// The block that a line names.
#[tactic(auto, unfolding(crate::specs::ScriptGrammar::block))]
fn target(block: Block<'_>) -> Result<Target, Fault>
    ensures { Gives result (block_target (block_of block.entry)) }
{
    let n = number(block.number)?;
    Ok(target_of(block.kind, n))
}

/// When a line makes its change.
#[tactic(auto, unfolding(crate::specs::ScriptGrammar::moment))]
fn when(moment: Moment<'_>) -> Result<When, Fault>
    ensures { Gives result (when_of (moment_of moment.entry)) }
{
    match moment {
        Moment::Start => Ok(When::Start),
        Moment::At(n) => Ok(When::At(number(n)?)),
        Moment::Suspend(k) => Ok(When::Suspend(number(k)?)),
    }
}

/// What a line's change does.
#[tactic(auto, unfolding(crate::specs::ScriptGrammar::deed))]
fn what(alloc: Global, form: Form<'_>) -> Result<What, Fault>
    ensures { Gives result (deed (change_of form.entry)) }
{
    match form {
        Form::Open { at, bytes: field } => {
            let at = number(at)?;
            let bytes = bytes(alloc, field)?;
            Ok(What::Open { at, bytes })
        }
        Form::Code { bytes: field } => {
            let bytes = bytes(alloc, field)?;
            Ok(What::Open {
                at: UNTRUSTED_START,
                bytes,
            })
        }
        Form::Bytes {
            block,
            at,
            bytes: field,
        } => {
            let target = target(block)?;
            let at = number(at)?;
            let bytes = bytes(alloc, field)?;
            Ok(What::Bytes { target, at, bytes })
        }
        Form::Save { slot, block } => {
            let slot = number(slot)?;
            let target = target(block)?;
            Ok(What::Save { slot, target })
        }
        Form::Back { slot, block } => {
            let slot = number(slot)?;
            let target = target(block)?;
            Ok(What::Back { slot, target })
        }
        Form::Copy { from, to } => {
            let from = target(from)?;
            let to = target(to)?;
            Ok(What::Copy { from, to })
        }
    }
}

/// The change that a line makes.
#[tactic(auto, unfolding(crate::specs::ScriptGrammar::change))]
fn change(alloc: Global, line: Line<'_>) -> Result<Change, Fault>
    ensures { Gives result (change (line_meant line.entry)) }
{
    let when = when(line.moment)?;
    let what = what(alloc, line.change)?;
    Ok(Change { when, what })
}

/// The change that a line of these fields makes, if it makes one.
#[tactic(auto, unfolding(crate::specs::ScriptGrammar::fields_say))]
fn fields_say(alloc: Global, fields: &[&[u8]]) -> Result<Option<Change>, Fault>
    ensures { Gives result (fields_say (texts fields.now)) }
{
    let [first, ..] = fields else {
        return Ok(None);
    };
    if first.starts_with(b"#") {
        return Ok(None);
    }
    let form = line_form(fields).ok_or(Fault::Line)?;
    let change = change(alloc, form)?;
    Ok(Some(change))
}

/// The change that a line makes, if it makes one.
#[tactic(auto, unfolding(crate::specs::ScriptGrammar::line_says))]
pub fn line_says(alloc: Global, line: &[u8]) -> Result<Option<Change>, Fault>
    ensures { Gives result (line_says line.now) }
{
    if !are_line_bytes(line) {
        return Err(Fault::Line);
    }
    let fields = fields_of(alloc, line)?;
    fields_say(alloc, &fields)
}
