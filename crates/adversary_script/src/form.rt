//! The words of a line, and where its numbers and its bytes stand.
ghost use Rattle.std.specs.Prelude.{◌≡◌, option_map};
ghost use Rattle.std.specs.Str.{bytes_eq};
ghost use Rattle.adversary_script.specs.LineForms.{kind_of, block_form, four_fields, change_form, line_form};
ghost use Rattle.adversary_script.specs.FormMeanings.{texts, block_of, change_of, line_meant};

/// A kind of block.
#[derive(Clone, Copy)]
pub enum Kind {
    Data,
    Node,
    Text,
    Log,
}

/// A block, with the field of its number.
#[derive(Clone, Copy)]
pub struct Block<'a> {
    pub kind: Kind,
    pub number: &'a [u8],
}

/// A change, with the fields of its numbers and its bytes.
#[derive(Clone, Copy)]
pub enum Form<'a> {
    Open {
        at: &'a [u8],
        bytes: &'a [u8],
    },
    Code {
        bytes: &'a [u8],
    },
    Bytes {
        block: Block<'a>,
        at: &'a [u8],
        bytes: &'a [u8],
    },
    Save {
        slot: &'a [u8],
        block: Block<'a>,
    },
    Back {
        slot: &'a [u8],
        block: Block<'a>,
    },
    Copy {
        from: Block<'a>,
        to: Block<'a>,
    },
}

/// When a change is made, with the field of its number.
#[derive(Clone, Copy)]
pub enum Moment<'a> {
    Start,
    At(&'a [u8]),
    Suspend(&'a [u8]),
}

/// A line that makes a change.
#[derive(Clone, Copy)]
pub struct Line<'a> {
    pub moment: Moment<'a>,
    pub change: Form<'a>,
}

/// Whether a field is this word.
fn is_word(field: &[u8], word: &str) -> bool
    ensures { result ≡ bytes_eq field.now word.now }
{
    field == word.as_bytes()
}

/// The kind of block that a word names.
#[tactic(auto, unfolding(crate::specs::LineForms::kind_of))]
fn kind_of(word: &[u8]) -> Option<Kind>
    ensures { result ≡ kind_of word.now }
{
    if is_word(word, "data") {
        Some(Kind::Data)
    } else if is_word(word, "node") {
        Some(Kind::Node)
    } else if is_word(word, "text") {
        Some(Kind::Text)
    } else if is_word(word, "log") {
        Some(Kind::Log)
    } else {
        None
    }
}

/// The block that a word and a field name.
#[tactic(auto, unfolding(crate::specs::LineForms::block_form))]
fn block_form<'a>(word: &[u8], number: &'a [u8]) -> Option<Block<'a>>
    ensures { option_map block_of result ≡ block_form word.now number.now }
{
    let kind = kind_of(word)?;
    Some(Block { kind, number })
}

/// A change with four fields.
#[tactic(auto, unfolding(crate::specs::LineForms::four_fields))]
fn four_fields<'a>(
    word: &[u8],
    first: &'a [u8],
    second: &'a [u8],
    third: &'a [u8],
) -> Option<Form<'a>>
    ensures { option_map change_of result ≡ four_fields word.now first.now second.now third.now }
{
    if is_word(word, "save") {
        let block = block_form(second, third)?;
        return Some(Form::Save { slot: first, block });
    }
    if is_word(word, "back") {
        let block = block_form(second, third)?;
        return Some(Form::Back { slot: first, block });
    }
    let block = block_form(word, first)?;
    Some(Form::Bytes {
        block,
        at: second,
        bytes: third,
    })
}

/// The change that these fields write.
#[tactic(auto, unfolding(crate::specs::LineForms::change_form, crate::specs::LineForms::copy_of))]
fn change_form<'a>(fields: &[&'a [u8]]) -> Option<Form<'a>>
    ensures { option_map change_of result ≡ change_form (texts fields.now) }
{
    match fields {
        [word, bytes] if is_word(word, "code") => Some(Form::Code { bytes }),
        [word, at, bytes] if is_word(word, "open") => Some(Form::Open { at, bytes }),
        [word, first, second, third] => four_fields(word, first, second, third),
        [word, first, second, third, fourth] if is_word(word, "copy") => {
            let from = block_form(first, second)?;
            let to = block_form(third, fourth)?;
            Some(Form::Copy { from, to })
        }
        _ => None,
    }
}

/// The line that these fields write.
#[tactic(auto, unfolding(crate::specs::LineForms::line_form, crate::specs::LineForms::moment_numbered, crate::specs::LineForms::moment_with))]
pub fn line_form<'a>(fields: &[&'a [u8]]) -> Option<Line<'a>>
    ensures { option_map line_meant result ≡ line_form (texts fields.now) }
{
    let [word, rest @ ..] = fields else {
        return None;
    };
    if is_word(word, "start") {
        let change = change_form(rest)?;
        return Some(Line {
            moment: Moment::Start,
            change,
        });
    }
    let [number, rest @ ..] = rest else {
        return None;
    };
    let moment = if is_word(word, "at") {
        Moment::At(number)
    } else if is_word(word, "suspend") {
        Moment::Suspend(number)
    } else {
        return None;
    };
    let change = change_form(rest)?;
    Some(Line { moment, change })
}
