// Device names.
ghost use Rattle.std.specs.Prelude.{◌≡◌, ◌↔◌, ◌<◌, ◌≤◌, map, string_bytes, length, slice_get, Some, IfOk, IsTrue, IsFalse, ◌≢◌};
ghost use Rattle.std.specs.List.{AllByRecursion};
ghost use Rattle.node_words.specs.Words.{IsName, AllDiffer, AreNames};

use crate::NoMemory;
use std::alloc::Global;
use std::marker::Model;

// The most names of a list.
const MOST_NAMES: usize = 16;

// Whether it can name a device.
fn is_name(word: &str) -> bool
    ensures { IsTrue result ↔ IsName word.now }
{
    match word.as_bytes().first() {
        Some(&byte) => byte != b'-',
        None => false,
    }
}

// Whether a word is among the words.
fn has(words: &[String], word: &String) -> bool
    ensures { IsFalse result ↔ AllByRecursion (λ other. string_bytes word.now ≢ other) (map string_bytes words.now) }
{
    words.contains(word)
}

// Whether each can name a device, and they differ.
fn are_different_names(words: &[String]) -> bool
    ensures { IsTrue result ↔ (AllByRecursion IsName (map string_bytes words.now) × AllDiffer (map string_bytes words.now)) }
{
    let mut rest = words;
    while let [word, others @ ..] = rest {
        if !is_name(word.as_str()) || has(others, word) {
            return false;
        }
        rest = others;
    }
    true
}

/// Whether these words are the device names of a list: 1 to 16 that differ, none of them empty or with a dash in
/// front.
pub fn are_names(words: &[String]) -> bool
    ensures { IsTrue result ↔ AreNames (map string_bytes words.now) }
{
    !words.is_empty() && words.len() <= MOST_NAMES && are_different_names(words)
}

/// The device names of a list, which contracts see as a list of texts.
#[derive(Drop)]
pub struct Names {
    texts: Vec<String>,
}

impl Model for Names {
    ghost use Rattle.std.specs.Prelude.{List, ℕ, ◌≤◌, map, string_bytes, vec_len};

    ghost Value = { List (List ℕ) };

    ghost view = { λ n. map string_bytes n.texts.items };

    ghost invariant = { λ n. vec_len n.texts ≤ 16 };
}

impl Names {
    // A copy of at most 16 words. The only error is want of memory.
    pub(crate) fn copied(alloc: Global, words: &[String]) -> Result<Names, NoMemory>
        requires { length words.now ≤ 16 }
        ensures { IfOk result (λ names. names ≡ map string_bytes words.now) }
    {
        let mut texts = Vec::new(alloc);
        for word in words {
            texts.push(String::from_str(alloc, word.as_str())?)?;
        }
        Ok(Names { texts })
    }

    /// How many there are.
    pub fn len(&self) -> u32
        ensures { result ≡ length self.now }
    {
        self.texts.len() as u32
    }

    /// The name at a place, counted from 0.
    pub fn get(&self, at: u32) -> &str
        requires { at < length self.now }
        ensures { slice_get self.now at ≡ Some result.now }
    {
        self.texts[at as usize].as_str()
    }
}
