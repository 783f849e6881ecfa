//! A text that is owned.

ghost use Rattle.std.specs.Prelude.{◌≡◌, IfOk, string_bytes};
ghost use Rattle.std.specs.Str.{IsUtf8};

use std::alloc::{AllocError, Global};
use std::marker::Model;

/// UTF-8 text. A contract sees its bytes.
#[derive(Debug, Drop)]
pub struct Text {
    text: String,
}

impl Model for Text {
    ghost use Rattle.std.specs.Prelude.{ℕ, List, string_bytes};
    ghost use Rattle.std.specs.Coded.{coded_list, coded_ℕ};

    ghost Value = { List ℕ };

    ghost coded = { coded_list coded_ℕ };

    ghost view = { λ t. string_bytes t.text };
}

impl Text {
    /// A copy of the text.
    pub fn from_text(alloc: Global, text: &str) -> Result<Text, AllocError>
        ensures copied { IfOk result (λ copy. copy ≡ text.now) }
    {
        let text = String::from_str(alloc, text)?;
        Ok(Text { text })
    }

    /// The same text, with nothing copied.
    pub fn from_string(text: String) -> Text
        ensures same { result ≡ string_bytes text }
    {
        Text { text }
    }

    /// The text.
    pub fn as_text(&self) -> &str
        ensures bytes { result.now ≡ self.now }
    {
        self.text.as_str()
    }
}
