//! UTF-8 text, seen as its bytes.
ghost use Rattle.std.specs.Prelude.{◌≡◌, MatchOption, IfOk, IsUtf8, string_bytes};

use crate::list::NoMem;
use std::alloc::Global;
use std::marker::Model;

/// A text of UTF-8 bytes.
pub struct PText {
    text: String,
}

// Written out, so that whoever drops a text makes one call for it.
impl Drop for PText {
    fn drop(self) {
        let PText { text: _text } = self;
    }
}

impl Model for PText {
    ghost use Rattle.std.specs.Prelude.{List, ℕ, string_bytes};

    ghost Value = { List ℕ };

    ghost view = { λ a. string_bytes a.text };
}

impl PText {
    /// The text of these bytes, None exactly where they aren't UTF-8.
    pub fn from_bytes(alloc: Global, bytes: &[u8]) -> Result<Option<PText>, NoMem>
        ensures { IfOk result (λ found. MatchOption found (¬ IsUtf8 bytes.now)
            (λ text. IsUtf8 bytes.now × text ≡ bytes.now)) }
    {
        match str::from_utf8(bytes) {
            Ok(text) => {
                let text = String::from_str(alloc, text)?;
                Ok(Some(PText { text }))
            }
            Err(_) => Ok(None),
        }
    }

    /// The text of these bytes, None exactly where they aren't UTF-8. It takes no memory.
    pub fn from_vec(bytes: Vec<u8>) -> Option<PText>
        ensures { MatchOption result (¬ IsUtf8 bytes.items)
            (λ text. IsUtf8 bytes.items × text ≡ bytes.items) }
    {
        match String::from_utf8(bytes) {
            Ok(text) => Some(PText { text }),
            Err(_) => None,
        }
    }

    /// The text that a string holds, which takes no memory.
    pub fn from_string(text: String) -> PText
        ensures { result ≡ string_bytes text }
    {
        PText { text }
    }

    /// The bytes, which are UTF-8.
    pub fn bytes(&self) -> &[u8]
        ensures value { result.now ≡ self.now }
        ensures utf8 { IsUtf8 self.now }
    {
        self.text.as_str().as_bytes()
    }

    /// The text as a `str`.
    pub fn as_str(&self) -> &str
        ensures { result.now ≡ self.now }
    {
        self.text.as_str()
    }

    /// Another text of the same bytes.
    pub fn copy(&self, alloc: Global) -> Result<PText, NoMem>
        ensures { IfOk result (λ copy. copy ≡ self.now) }
    {
        let text = String::from_str(alloc, self.text.as_str())?;
        Ok(PText { text })
    }
}
