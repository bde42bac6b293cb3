//! HTML in which nothing but the texts of the template is markup.
ghost use Rattle.std.specs.Prelude.{◌≡◌, ◌++◌, List, ℕ, MatchResult, true};
ghost use Rattle.std.specs.List.{flat_map};
ghost use Rattle.census_page.specs.Pages.{IsHtml, escaped_byte, is_harmless};

use crate::own::{COMMA, NAME, PLURAL, TOLD_END, text_of};
use itoa::Buffer;
use std::alloc::{AllocError, Global};
use std::marker::Model;

/// HTML: texts of the template, and escaped bytes. No row of a table of codes or patterns begins in it.
#[derive(Drop)]
pub struct Html {
    bytes: Vec<u8>,
}

impl Model for Html {
    ghost use Rattle.std.specs.Prelude.{List, ℕ};

    ghost Value = { List ℕ };

    ghost use Rattle.census_page.specs.Pages.{IsHtml};

    ghost view = { λ html. html.bytes.items };

    ghost invariant = { λ html. IsHtml html.bytes.items };
}

/// Adds a byte, or an entity in place of `&`, `<`, `>`, `"` and `'`.
pub fn push_escaped(bytes: &mut Vec<u8>, byte: u8) -> Result<(), AllocError>
    ensures { MatchResult result (λ _. bytes.new.items ≡ bytes.old.items ++ escaped_byte byte)
        (λ _. bytes.new.items ≡ bytes.old.items) }
{
    match byte {
        b'&' => bytes.extend_from_slice(b"&amp;"),
        b'<' => bytes.extend_from_slice(b"&lt;"),
        b'>' => bytes.extend_from_slice(b"&gt;"),
        b'"' => bytes.extend_from_slice(b"&quot;"),
        b'\'' => bytes.extend_from_slice(b"&#39;"),
        _ => {
            bytes.push(byte)?;
            Ok(())
        }
    }
}

impl Html {
    /// Empty HTML.
    pub fn new(alloc: Global) -> Html {
        Html {
            bytes: Vec::new(alloc),
        }
    }

    /// The bytes of the text.
    pub fn as_slice(&self) -> &[u8]
        ensures { IsHtml result.now }
    {
        self.bytes.as_slice()
    }

    /// Appends the text of the template with this number. The only error is out of memory.
    pub fn own(&mut self, number: usize) -> Result<(), AllocError> {
        self.bytes.extend_from_slice(text_of(number))
    }

    /// Appends a byte, escaped. The only error is out of memory.
    pub fn byte(&mut self, byte: u8) -> Result<(), AllocError> {
        push_escaped(&mut self.bytes, byte)
    }

    /// Appends bytes, escaped: they may be in the text of an element or between quotes. The only error is out of memory.
    pub fn value(&mut self, bytes: &[u8]) -> Result<(), AllocError> {
        for byte in bytes {
            self.byte(*byte)?;
        }
        Ok(())
    }

    /// Appends a text, escaped, with U+FFFD for bytes that are not UTF-8. The only error is out of memory.
    pub fn text(&mut self, alloc: Global, bytes: &[u8]) -> Result<(), AllocError> {
        let characters = String::from_utf8_lossy(alloc, bytes)?;
        self.value(characters.as_bytes())
    }

    /// Appends a name as an element of its own, whose text direction depends on its own characters alone. Bytes that are not
    /// UTF-8 become U+FFFD. The only error is out of memory.
    pub fn name(&mut self, alloc: Global, bytes: &[u8]) -> Result<(), AllocError> {
        self.own(NAME)?;
        self.text(alloc, bytes)?;
        self.own(TOLD_END)
    }

    /// Appends a number in decimal. The only error is out of memory.
    pub fn number(&mut self, number: u64) -> Result<(), AllocError> {
        let mut buffer = Buffer::new();
        self.value(buffer.format(number).as_bytes())
    }

    /// Appends a signed number in decimal. The only error is out of memory.
    pub fn signed(&mut self, number: i64) -> Result<(), AllocError> {
        let mut buffer = Buffer::new();
        self.value(buffer.format(number).as_bytes())
    }

    /// Appends digits with a comma before each group of three, counted from the end. The only error is out of memory.
    pub fn digits(&mut self, digits: &[u8]) -> Result<(), AllocError> {
        for index in 0..digits.len() {
            if index != 0 && (digits.len() - index) % 3 == 0 {
                self.own(COMMA)?;
            }
            self.byte(digits[index])?;
        }
        Ok(())
    }

    /// Appends a number with commas, such as 12,345. The only error is out of memory.
    pub fn grouped(&mut self, number: u64) -> Result<(), AllocError> {
        let mut buffer = Buffer::new();
        self.digits(buffer.format(number).as_bytes())
    }

    /// Appends the plural ending of a word, unless the number is 1. The only error is out of memory.
    pub fn plural(&mut self, number: u64) -> Result<(), AllocError> {
        if number == 1 {
            return Ok(());
        }
        self.own(PLURAL)
    }
}

/// An escaped text has no `<`, `>`, `"` and `'`, and each `&` in it begins an entity.
pub fn an_escaped_text_has_no_markup()
    ensures { (bytes : List ℕ) → is_harmless (flat_map escaped_byte bytes) ≡ true }
{}
