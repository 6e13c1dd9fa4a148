//! Laws of tokens.
ghost use Rattle.c_token.specs.PlainText.{PlainTextReadsBack, TokensAreInForm};

/// Tokens in form, spelled plainly with one space between two, are the tokens of that text.
pub fn plain_text_reads_back()
    ensures reads_back { PlainTextReadsBack }
{}

/// Each token of a text is in form.
pub fn tokens_are_in_form()
    ensures in_form { TokensAreInForm }
{}
