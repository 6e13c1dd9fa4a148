//! What follows of the definitions alone. The function's contract is a law, and its body is empty.
ghost use Rattle.adversary_script.specs.ScriptTexts.{TextsKeepRules};

/// A text reads to changes exactly where these keep the rules and each of them has a line.
pub fn texts_keep_rules()
    ensures law { TextsKeepRules }
{}
