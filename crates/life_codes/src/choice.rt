//! The least of some texts.
ghost use Rattle.std.specs.Prelude.{◌≡◌, ◌++◌, ◌<◌, ◌∷◌, IsSomeAnd, IsTrue, List, None, OnOk, [], length, unwrap_or, ℕ};
ghost use Rattle.life_codes.specs.Least.{with_text};

use crate::lengths::Lengths;
use life_cells::shorter;
use std::alloc::{AllocError, Global};
use std::cmp::Ordering;
use std::marker::Model;
use std::mem::swap;

/// The least of the texts so far, if there is one.
#[derive(Drop)]
pub struct Choice {
    text: Vec<u8>,
    some: bool,
}

impl Model for Choice {
    ghost use Rattle.std.specs.Prelude.{◌≡◌, List, Option, [], false, ℕ};
    ghost use Rattle.life_codes.specs.Least.{text_if};

    ghost Value = { Option (List ℕ) };

    ghost view = { λ c. text_if c.some c.text.items };

    // no bytes without a text
    ghost invariant = { λ c. c.some ≡ false → c.text.items ≡ [] };
}

impl Choice {
    /// The choice among no texts. Takes no memory.
    pub fn new(alloc: Global) -> Choice
        ensures { result ≡ None }
    {
        Choice {
            text: Vec::new(alloc),
            some: false,
        }
    }

    /// Becomes a copy of the other.
    pub fn copy(&mut self, other: &Choice) -> Result<(), AllocError>
        ensures { OnOk result (self.new ≡ other.now) }
    {
        self.text.clear();
        self.text.extend_from_slice(&other.text)?;
        self.some = other.some;
        Ok(())
    }

    /// True where there is a text of fewer bytes.
    pub fn is_shorter(&self, bytes: usize) -> bool
        ensures { IsTrue result → IsSomeAnd self.now (λ t. length t < bytes) }
    {
        self.some && self.text.len() < bytes
    }

    /// True where there is a text of fewer bytes than each of the texts of these lengths.
    pub fn is_below(&self, one: Lengths, other: Lengths) -> bool
        ensures one { IsTrue result → IsSomeAnd self.now (λ t. length t < one.forward) }
        ensures one_back { IsTrue result → IsSomeAnd self.now (λ t. length t < one.backward) }
        ensures other { IsTrue result → IsSomeAnd self.now (λ t. length t < other.forward) }
        ensures other_back { IsTrue result →
            IsSomeAnd self.now (λ t. length t < other.backward) }
    {
        self.is_shorter(one.forward)
            && self.is_shorter(one.backward)
            && self.is_shorter(other.forward)
            && self.is_shorter(other.backward)
    }

    /// True where there is a text that is less than each text of `bytes` bytes with this first one.
    pub fn is_before(&self, bytes: usize, first: u8) -> bool
        ensures { IsTrue result → (rest : List ℕ) → length (first ∷ rest) ≡ bytes →
            with_text self.now (first ∷ rest) ≡ self.now }
    {
        if !self.some || self.text.len() != bytes || bytes == 0 {
            return false;
        }
        self.text[0] < first
    }

    /// True where there is a text that is less than each text of `bytes` bytes with this start.
    pub fn is_begun_before(&self, bytes: usize, start: &[u8]) -> bool
        ensures { IsTrue result → (rest : List ℕ) → length (start.now ++ rest) ≡ bytes →
            with_text self.now (start.now ++ rest) ≡ self.now }
    {
        if !self.some || self.text.len() != bytes || start.len() > bytes {
            return false;
        }
        self.text[..start.len()].cmp(start).is_lt()
    }

    /// Takes one more text. The text that is not the least is left in `text`.
    pub fn offer(&mut self, text: &mut Vec<u8>)
        ensures { self.new ≡ with_text self.old text.old.items }
    {
        if !self.some || shorter(&self.text, text) == Ordering::Greater {
            swap(&mut self.text, text);
            self.some = true;
        }
    }

    /// The text, or no bytes if there is none.
    pub fn text(&self) -> &[u8]
        ensures { result.now ≡ unwrap_or self.now [] }
    {
        &self.text
    }

    /// The text itself, or no bytes if there is none.
    pub fn into_text(self) -> Vec<u8>
        ensures { result.items ≡ unwrap_or self [] }
    {
        self.text
    }
}
