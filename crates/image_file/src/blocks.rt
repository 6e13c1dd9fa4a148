//! The contents of an image's static blocks.
ghost use Rattle.std.specs.Prelude.{◌≡◌, ℕ, List};

use std::marker::Model;

/// The bytes of constant blocks. They are made from a `Vec` and give it back.
#[derive(Debug, Drop)]
pub struct ConstantBytes {
    bytes: Vec<u8>,
}

impl Model for ConstantBytes {
    ghost Value = { List ℕ };

    ghost view = { λ constants. constants.bytes.items };
}

impl ConstantBytes {
    /// The bytes of a `Vec`.
    pub fn new(bytes: Vec<u8>) -> ConstantBytes
        ensures { result ≡ bytes.items }
    {
        ConstantBytes { bytes }
    }

    /// The bytes, in order.
    pub fn as_slice(&self) -> &[u8]
        ensures { result.now ≡ self.now }
    {
        self.bytes.as_slice()
    }

    /// The `Vec` of the bytes.
    pub fn into_vec(self) -> Vec<u8>
        ensures { result.items ≡ self }
    {
        self.bytes
    }
}

/// The words of code blocks. They are made from a `Vec` and give it back.
#[derive(Debug, Drop)]
pub struct CodeWords {
    words: Vec<u32>,
}

impl Model for CodeWords {
    ghost Value = { List ℕ };

    ghost view = { λ code. code.words.items };
}

impl CodeWords {
    /// The words of a `Vec`.
    pub fn new(words: Vec<u32>) -> CodeWords
        ensures { result ≡ words.items }
    {
        CodeWords { words }
    }

    /// The words, in order.
    pub fn as_slice(&self) -> &[u32]
        ensures { result.now ≡ self.now }
    {
        self.words.as_slice()
    }

    /// The `Vec` of the words.
    pub fn into_vec(self) -> Vec<u32>
        ensures { result.items ≡ self }
    {
        self.words
    }
}
