//! The line of an answer on the notes.
ghost use Rattle.std.specs.Prelude.{◌≡◌, ◌+◌, ◌≤◌, ◌++◌, length, codes, decimal};
ghost use Rattle.std.specs.Option.{option_map};
ghost use Rattle.aegis_run.specs.Report.{line_of, meaning_line, file_word, image_line, place_line, plan_line, run_line, syntax_line, token_line, type_line};

use crate::ends::{End, TopEnd};
use aegis_words::File;
use arrayvec::ArrayString;
use c_meaning::MeanEnd;
use c_reader::SyntaxError;
use c_token::TokenError;
use c_types::TypeError;
use image_file::ImageError;
use itoa::Buffer;
use region_plan::PlanError;

/// The words of the commands.
const USAGE_OF_RUN: &str = "usage: run SOURCE SCRIPT INPUT FUEL KEY NONCE";

const USAGE_OF_THE_OTHERS: &str = ", mean SOURCE INPUT TURNS, build SOURCE, list IMAGE, make N";

/// A line with its line feed.
pub type Line = ArrayString<256>;

/// The line of an answer, and of a run that ended after `retired` instructions, where the answer has one.
pub fn report_line(end: &TopEnd, retired: u64) -> Option<Line>
    ensures { option_map (λ line. line.bytes) result ≡ line_of end.now retired }
{
    Some(match end {
        TopEnd::Done => return None,
        TopEnd::Run(end) => report_run(*end, retired),
        TopEnd::Mean(end) => report_meaning(*end),
        TopEnd::Usage => line_from(USAGE_OF_RUN, USAGE_OF_THE_OTHERS, "\n"),
        TopEnd::TooLong(file) => line_from("too long: ", file_name(*file), "\n"),
        TopEnd::Token(error) => report_token(*error),
        TopEnd::Syntax(error) => report_syntax(*error),
        TopEnd::Typing(error) => report_typing(*error),
        TopEnd::Plan(error) => report_plan(*error),
        TopEnd::Image(error) => report_image(*error),
        TopEnd::NotYet(file) => line_from("not yet ", file_name(*file), "\n"),
        TopEnd::NoFile(file) => line_from("no file: ", file_name(*file), "\n"),
        TopEnd::ReadFault => line_from("read fault", "", "\n"),
        TopEnd::WriteFault => line_from("write fault", "", "\n"),
        TopEnd::OutOfMemory => line_from("out of memory", "", "\n"),
    })
}

/// The line of a run that ends so after `retired` instructions.
fn report_run(end: End, retired: u64) -> Line
    ensures { result.bytes ≡ run_line end retired }
{
    match end {
        End::Ended => line_with("ended retired ", retired, " events 0\n"),
        End::Index { at } => line_of_trap("index token ", at, retired),
        End::Divide { at } => line_of_trap("divide token ", at, retired),
        End::FuelOut { .. } => line_with("fuel retired ", retired, " events 0\n"),
        End::WriteFault => line_from("write fault", "", "\n"),
    }
}

/// The line of a run that ends at a token.
fn line_of_trap(front: &str, at: u32, retired: u64) -> Line
    requires { length front.now ≤ 20 }
    ensures { result.bytes ≡ front.now ++ decimal at ++ codes " retired " ++ decimal retired ++ codes " events 0\n" }
{
    let mut place = Buffer::new();
    let mut count = Buffer::new();
    let mut line = line_from(front, place.format(at), " retired ");
    line.push_str(count.format(retired));
    line.push_str(" events 0\n");
    line
}

/// The line of a meaning that ends so.
fn report_meaning(end: MeanEnd) -> Line
    ensures { result.bytes ≡ meaning_line end }
{
    match end {
        MeanEnd::Ended => line_from("ended", "", "\n"),
        MeanEnd::Index { at } => line_with("index token ", at as u64, "\n"),
        MeanEnd::Divide { at } => line_with("divide token ", at as u64, "\n"),
        MeanEnd::Turns => line_from("turns", "", "\n"),
    }
}

/// The line of a text without tokens.
fn report_token(error: TokenError) -> Line
    ensures { result.bytes ≡ token_line error }
{
    match error {
        TokenError::BadByte { at } => line_with("byte ", at as u64, ": bad byte\n"),
        TokenError::OpenComment { at } => line_with("byte ", at as u64, ": open comment\n"),
        TokenError::LongName { at } => line_with("byte ", at as u64, ": long name\n"),
        TokenError::BadNumber { at } => line_with("byte ", at as u64, ": bad number\n"),
        TokenError::BigNumber { at } => line_with("byte ", at as u64, ": big number\n"),
        TokenError::OutOfMemory => line_from("out of memory", "", "\n"),
    }
}

/// The line of tokens that are no program.
fn report_syntax(error: SyntaxError) -> Line
    ensures { result.bytes ≡ syntax_line error }
{
    match error {
        SyntaxError::Expected { token } => line_with("token ", token as u64, ": unexpected\n"),
        SyntaxError::Deep { token } => line_with("token ", token as u64, ": nested too deep\n"),
        SyntaxError::OutOfMemory => line_from("out of memory", "", "\n"),
    }
}

/// The line of a program that breaks a typing rule, or has no `main`.
fn report_typing(error: TypeError) -> Line
    ensures { result.bytes ≡ type_line error }
{
    match error {
        TypeError::Unknown { at } => line_with("token ", at as u64, ": unknown\n"),
        TypeError::Twice { at } => line_with("token ", at as u64, ": twice\n"),
        TypeError::Recursive { at } => line_with("token ", at as u64, ": recursive\n"),
        TypeError::Class { at } => line_with("token ", at as u64, ": class\n"),
        TypeError::Shape { at } => line_with("token ", at as u64, ": shape\n"),
        TypeError::Arity { at } => line_with("token ", at as u64, ": arity\n"),
        TypeError::TooLong { at } => line_with("token ", at as u64, ": too long\n"),
        TypeError::TooMany { at } => line_with("token ", at as u64, ": too many\n"),
        TypeError::NoMain => line_from("no main", "", "\n"),
        TypeError::OutOfMemory => line_from("out of memory", "", "\n"),
    }
}

/// The line of a program that does not fit.
fn report_plan(error: PlanError) -> Line
    ensures { result.bytes ≡ plan_line error }
{
    match error {
        PlanError::TreeFull { blocks } => line_with("tree full ", blocks, "\n"),
        PlanError::LogFull { blocks } => line_with("log full ", blocks, "\n"),
        PlanError::OpenFull { bytes } => line_with("open full ", bytes, "\n"),
        PlanError::OutOfMemory => line_from("out of memory", "", "\n"),
    }
}

/// The line of a file that is no image.
fn report_image(error: ImageError) -> Line
    ensures { result.bytes ≡ image_line error }
{
    match error {
        ImageError::Short { at } => line_with("image: short ", at, "\n"),
        ImageError::Magic => line_from("image: magic", "", "\n"),
        ImageError::Version { found } => line_with("image: version ", found as u64, "\n"),
        ImageError::Field { at } => line_with("image: field ", at, "\n"),
        ImageError::Trailing { at } => line_with("image: trailing ", at, "\n"),
        ImageError::OutOfMemory => line_from("out of memory", "", "\n"),
    }
}

/// What a file is called.
fn file_name(file: File) -> &'static str
    ensures name { result.now ≡ file_word file }
    ensures short { length result.now ≤ 6 }
{
    match file {
        File::Source => "source",
        File::Script => "script",
        File::Input => "input",
        File::Image => "image",
    }
}

/// A line of three texts.
fn line_from(front: &str, middle: &str, back: &str) -> Line
    requires { length front.now + length middle.now + length back.now ≤ 256 }
    ensures { result.bytes ≡ front.now ++ middle.now ++ back.now }
{
    let mut line = Line::new();
    line.push_str(front);
    line.push_str(middle);
    line.push_str(back);
    line
}

/// A line of a number between two texts.
fn line_with(front: &str, number: u64, back: &str) -> Line
    requires { length front.now + length back.now ≤ 200 }
    ensures { result.bytes ≡ place_line front.now number back.now }
{
    let mut buffer = Buffer::new();
    line_from(front, buffer.format(number), back)
}
