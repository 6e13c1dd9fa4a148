//! The answers of the program and their exit statuses.
ghost use Rattle.std.specs.Prelude.{◌≡◌};
ghost use Rattle.aegis_run.specs.FilesRead.{end_of_token, end_of_syntax, end_of_type, end_of_emit, end_of_image, end_of_run};
ghost use Rattle.aegis_run.specs.Report.{status_when_noted, status_of as status_of_answer};

use aegis_words::File;
use c_meaning::MeanEnd;
use c_reader::SyntaxError;
use c_token::TokenError;
use c_types::TypeError;
use compiled_run::{ImageEnd, Ran};
use compiler::EmitError;
use image_file::ImageError;
use region_plan::PlanError;

/// How a run ended.
#[derive(Clone, Copy, Debug, PartialEq, Eq)]
pub enum End {
    /// The program came to its end, and every released byte was taken.
    Ended,
    /// An index was not below the length of its array; `at` is the number of the token `[`.
    Index { at: u32 },
    /// A divisor was zero; `at` is the number of the operator's token.
    Divide { at: u32 },
    /// As many instructions were done as the fuel allows, and the program had not ended.
    FuelOut { retired: u64 },
    /// A released byte was not taken.
    WriteFault,
}

/// How a run of an image ended, after so many instructions.
pub fn end_of(ran: Ran) -> End
    ensures { result ≡ end_of_run ran.end ran.retired }
{
    match ran.end {
        ImageEnd::Ended => End::Ended,
        ImageEnd::Index { at } => End::Index { at },
        ImageEnd::Divide { at } => End::Divide { at },
        ImageEnd::FuelOut => End::FuelOut {
            retired: ran.retired,
        },
        ImageEnd::WriteFault => End::WriteFault,
    }
}

/// The answer of the program. Want of memory is `OutOfMemory` alone, and never that of `Token`, `Syntax`,
/// `Typing`, `Plan` or `Image`.
#[derive(Debug, PartialEq, Eq, Drop)]
pub enum TopEnd {
    /// The whole text that was asked for was taken.
    Done,
    /// A run was started and ended so.
    Run(End),
    /// The meaning of the source ends so, and every byte that it releases was taken.
    Mean(MeanEnd),
    /// The words are no command.
    Usage,
    /// A file holds more bytes than it may.
    TooLong(File),
    /// The source has no tokens.
    Token(TokenError),
    /// The tokens of the source are no program.
    Syntax(SyntaxError),
    /// The program breaks a typing rule, or has no `main`.
    Typing(TypeError),
    /// The program needs more memory than there is.
    Plan(PlanError),
    /// The file is no image.
    Image(ImageError),
    /// The file asks for what is not built yet.
    NotYet(File),
    /// There is no file of this name.
    NoFile(File),
    /// A file failed while it was read.
    ReadFault,
    /// A byte that the meaning of the source releases was not taken.
    WriteFault,
    /// Memory ran out before a run was started, or before the meaning was known.
    OutOfMemory,
}

/// What a call of the program answers.
#[derive(Debug, PartialEq, Eq, Drop)]
pub struct Finish {
    /// The exit status.
    pub status: u8,
    /// The answer.
    pub end: TopEnd,
    /// Whether the line of the answer was written, where it has one.
    pub noted: bool,
}

impl From<TokenError> for TopEnd {
    ghost from_gives = { λ error end. end ≡ end_of_token error };

    fn from(error: TokenError) -> TopEnd {
        match error {
            TokenError::OutOfMemory => TopEnd::OutOfMemory,
            error => TopEnd::Token(error),
        }
    }
}

impl From<SyntaxError> for TopEnd {
    ghost from_gives = { λ error end. end ≡ end_of_syntax error };

    fn from(error: SyntaxError) -> TopEnd {
        match error {
            SyntaxError::OutOfMemory => TopEnd::OutOfMemory,
            error => TopEnd::Syntax(error),
        }
    }
}

impl From<TypeError> for TopEnd {
    ghost from_gives = { λ error end. end ≡ end_of_type error };

    fn from(error: TypeError) -> TopEnd {
        match error {
            TypeError::OutOfMemory => TopEnd::OutOfMemory,
            error => TopEnd::Typing(error),
        }
    }
}

impl From<EmitError> for TopEnd {
    ghost from_gives = { λ error end. end ≡ end_of_emit error };

    fn from(error: EmitError) -> TopEnd {
        match error {
            EmitError::Plan(error) => TopEnd::Plan(error),
            EmitError::OutOfMemory => TopEnd::OutOfMemory,
        }
    }
}

impl From<ImageError> for TopEnd {
    ghost from_gives = { λ error end. end ≡ end_of_image error };

    fn from(error: ImageError) -> TopEnd {
        match error {
            ImageError::OutOfMemory => TopEnd::OutOfMemory,
            error => TopEnd::Image(error),
        }
    }
}

/// The exit status of an answer: 5 where its line was not written.
pub fn status_of(end: &TopEnd, noted: bool) -> u8
    ensures { result ≡ status_of_answer end.now noted }
{
    if noted { status_of_noted(end) } else { 5 }
}

/// The exit status of an answer whose line was written.
fn status_of_noted(end: &TopEnd) -> u8
    ensures { result ≡ status_when_noted end.now }
{
    match end {
        TopEnd::Done | TopEnd::Run(End::Ended) | TopEnd::Mean(MeanEnd::Ended) => 0,
        TopEnd::Usage => 1,
        TopEnd::Token(_) | TopEnd::Syntax(_) | TopEnd::Typing(_) => 2,
        TopEnd::NoFile(_) | TopEnd::ReadFault => 4,
        TopEnd::Run(End::WriteFault) | TopEnd::WriteFault => 5,
        TopEnd::OutOfMemory => 6,
        TopEnd::TooLong(_) | TopEnd::Plan(_) => 7,
        TopEnd::Image(_) => 8,
        TopEnd::NotYet(_) => 9,
        TopEnd::Run(End::Index { .. }) | TopEnd::Mean(MeanEnd::Index { .. }) => 10,
        TopEnd::Run(End::Divide { .. }) | TopEnd::Mean(MeanEnd::Divide { .. }) => 11,
        TopEnd::Run(End::FuelOut { .. }) | TopEnd::Mean(MeanEnd::Turns) => 30,
    }
}
