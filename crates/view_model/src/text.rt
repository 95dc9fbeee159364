//! The text of a view.
ghost use Rattle.std.specs.Prelude.{◌≡◌, ◌^◌, ◌<◌, [], IfOk, length, slice_get, encode_utf8_all};
ghost use Rattle.view_model.specs.Texts.{IsShortText};

use std::alloc::{AllocError, Global};
use std::marker::Model;

/// The text of a view, which contracts see as the list of its characters.
#[derive(Drop)]
pub struct Text {
    characters: Vec<char>,
}

impl Model for Text {
    ghost use Rattle.std.specs.Prelude.{ℕ, List, ◌<◌, ◌^◌, length};

    ghost Value = { List ℕ };

    ghost view = { λ t. t.characters.items };

    ghost invariant = { λ t. length t.characters.items < 2 ^ 31 };
}

impl Text {
    /// The text without a character. It takes no memory.
    pub fn empty(alloc: Global) -> Text
        ensures { result ≡ [] }
    {
        Text {
            characters: Vec::new(alloc),
        }
    }

    /// The characters of a text.
    pub fn new(alloc: Global, text: &str) -> Result<Text, AllocError>
        requires { IsShortText text.now }
        ensures { IfOk result (λ t. encode_utf8_all t ≡ text.now) }
    {
        let characters = text.chars().collect(alloc)?;
        Ok(Text { characters })
    }

    /// The text of these characters.
    pub fn from_characters(characters: Vec<char>) -> Text
        requires { IsShortText characters.items }
        ensures { result ≡ characters.items }
    {
        Text { characters }
    }

    /// The same text once more.
    pub fn copy(&self, alloc: Global) -> Result<Text, AllocError>
        ensures { IfOk result (λ t. t ≡ self.now) }
    {
        let characters = Vec::from_slice(alloc, self.characters.as_slice())?;
        Ok(Text { characters })
    }

    /// Its characters, in order.
    pub fn characters(&self) -> &[char]
        ensures value { result.now ≡ self.now }
        ensures few { IsShortText result.now }
    {
        self.characters.as_slice()
    }

    /// How many characters there are.
    pub fn len(&self) -> usize
        ensures { result ≡ length self.now }
    {
        self.characters.len()
    }

    /// The character at this place, from 0.
    pub fn at(&self, k: usize) -> Option<char>
        ensures { result ≡ slice_get self.now k }
    {
        self.characters.get(k).copied()
    }
}
