ghost use Rattle.std.specs.Prelude.{◌≡◌, IfOk, MatchResult, string_bytes};
ghost use Rattle.std.specs.Str.{IsUtf8};

use crate::memory::Memory;
use std::alloc::Global;
use std::marker::Model;

/// A text: bytes that are UTF-8 (RFC 3629). A contract sees the list of its bytes.
pub struct Chars {
    text: String,
}

// Written out, so that the text is let go by one call.
impl Drop for Chars {
    fn drop(self) {
        let Chars { text: _ } = self;
    }
}

impl Model for Chars {
    ghost use Rattle.std.specs.Prelude.{List, ℕ, string_bytes};

    ghost Value = { List ℕ };

    ghost view = { λ c. string_bytes c.text };
}

impl Chars {
    /// The text of a string, which it keeps.
    pub fn new(text: String) -> Chars
        ensures { result ≡ string_bytes text }
    {
        Chars { text }
    }

    /// A text of these bytes, which it keeps. `Err`: the bytes are not UTF-8 (RFC 3629); here they
    /// are again.
    pub fn from_utf8(bytes: Vec<u8>) -> Result<Chars, Vec<u8>>
        ensures { MatchResult result (λ c. c ≡ bytes.items) (λ b. (b.items ≡ bytes.items) × ¬ IsUtf8 bytes.items) }
    {
        match String::from_utf8(bytes) {
            Ok(text) => Ok(Chars { text }),
            Err(fault) => Err(fault.into_bytes()),
        }
    }

    /// A copy of a text. `Memory`: want of memory.
    pub fn copy_of(alloc: Global, text: &str) -> Result<Chars, Memory>
        ensures { IfOk result (λ c. c ≡ text.now) }
    {
        Ok(Chars {
            text: String::from_str(alloc, text)?,
        })
    }

    /// The text, borrowed.
    pub fn as_str(&self) -> &str
        ensures { result.now ≡ self.now }
    {
        self.text.as_str()
    }

    /// The string that holds the text.
    pub fn into_string(self) -> String
        ensures { string_bytes result ≡ self }
    {
        let Chars { text } = self;
        text
    }

    /// An equal text. `Memory`: want of memory.
    pub fn copy(&self, alloc: Global) -> Result<Chars, Memory>
        ensures { IfOk result (λ c. c ≡ self.now) }
    {
        Chars::copy_of(alloc, self.as_str())
    }
}

/// Bytes of any kind. A contract sees their list.
#[derive(Drop)]
pub struct Bytes {
    bytes: Vec<u8>,
}

impl Model for Bytes {
    ghost use Rattle.std.specs.Prelude.{List, ℕ};

    ghost Value = { List ℕ };

    ghost view = { λ b. b.bytes.items };
}

impl Bytes {
    /// These bytes, which it keeps.
    pub fn new(bytes: Vec<u8>) -> Bytes
        ensures { result ≡ bytes.items }
    {
        Bytes { bytes }
    }

    /// The bytes, borrowed.
    pub fn as_slice(&self) -> &[u8]
        ensures { result.now ≡ self.now }
    {
        &self.bytes
    }

    /// The vector that holds the bytes.
    pub fn into_vec(self) -> Vec<u8>
        ensures { result.items ≡ self }
    {
        self.bytes
    }
}

/// Texts in order. A contract sees the list of their lists of bytes.
#[derive(Drop)]
pub struct Names {
    names: Vec<Chars>,
}

impl Model for Names {
    ghost use Rattle.std.specs.Prelude.{List, ℕ};

    ghost Value = { List (List ℕ) };

    ghost view = { λ n. n.names.items };
}

impl Names {
    /// These texts, which it keeps.
    pub fn new(names: Vec<Chars>) -> Names
        ensures { result ≡ names.items }
    {
        Names { names }
    }

    /// The texts, borrowed.
    pub fn as_slice(&self) -> &[Chars]
        ensures { result.now ≡ self.now }
    {
        &self.names
    }

    /// The vector that holds the texts.
    pub fn into_vec(self) -> Vec<Chars>
        ensures { result.items ≡ self }
    {
        self.names
    }
}
