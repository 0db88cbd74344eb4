// The options in front of the device names.
ghost use Rattle.std.specs.Prelude.{◌≡◌, ◌↔◌, ◌<◌, [], map, string_bytes, length, option_map, MatchOption, IsTrue};
ghost use Rattle.node_words.specs.Options.{is_dashed, BeginsWith, split, asked};
ghost use Rattle.node_words.specs.Reading.{ReadsAs};
ghost use Rattle.node_words.specs.Words.{given, number, power, choice};

use crate::number::{number_of, power_of};
use std::marker::Model;

// Whether a word is an option's name, and no device name.
fn is_option(word: &str) -> bool
    ensures { result ≡ is_dashed word.now }
{
    match word.as_bytes().first() {
        Some(&byte) => byte == b'-',
        None => false,
    }
}

// An option in front with its value, and the words behind them.
fn first_option(words: &[String]) -> Option<(&str, &str, &[String])>
    ensures { MatchOption result (split (map string_bytes words.now) ≡ ([], map string_bytes words.now))
        (λ first. BeginsWith (map string_bytes words.now) first.0.now first.1.now (map string_bytes first.2.now) × (length first.2.now < length words.now)) }
{
    match words {
        [option, value, behind @ ..] if is_option(option.as_str()) => {
            Some((option.as_str(), value.as_str(), behind))
        }
        _ => None,
    }
}

/// The options that stand in front of some words. Where each name is asked for once, none is left unread exactly where
/// each option that was given was asked for and was given once.
#[derive(Drop)]
pub struct Options<'w> {
    words: &'w [String],
    unread: usize,
}

impl<'w> Model for Options<'w> {
    ghost use Rattle.std.specs.Prelude.{map, string_bytes};
    ghost use Rattle.node_words.specs.Options.{Offer, split};

    ghost Value = { Offer };

    ghost view = { λ o. record { pairs = (split (map string_bytes o.words.now)).0; unread = o.unread } };
}

impl<'w> Options<'w> {
    /// The options in front of the words, and the words behind them.
    pub fn split(words: &'w [String]) -> (Options<'w>, &'w [String])
        ensures pairs { result.0.pairs ≡ (split (map string_bytes words.entry.now)).0 }
        ensures unread { result.0.unread ≡ length result.0.pairs }
        ensures behind { map string_bytes result.1.now ≡ (split (map string_bytes words.entry.now)).1 }
    {
        let mut unread = 0;
        let mut behind = words;
        while let Some((_, _, others)) = first_option(behind) {
            unread += 1;
            behind = others;
        }
        (Options { words, unread }, behind)
    }

    /// Whether each option that was given has been asked for.
    pub fn are_read(&self) -> bool
        ensures { IsTrue result ↔ (self.now.unread ≡ 0) }
    {
        self.unread == 0
    }

    // The value that the option was given.
    fn given(&mut self, name: &str) -> Option<&'w str>
        ensures value { option_map (λ text. text.now) result ≡ given name.now self.old.pairs }
        ensures asked { self.new ≡ asked self.old name.now }
    {
        let mut rest = self.words;
        while let Some((option, value, behind)) = first_option(rest) {
            if option == name {
                self.unread = self.unread.saturating_sub(1);
                return Some(value);
            }
            rest = behind;
        }
        None
    }

    /// A number in a range, or the default; none where something else was given.
    pub fn number(&mut self, name: &str, least: u32, greatest: u32, default: u32) -> Option<u32>
        ensures value { ReadsAs (number least greatest default) (given name.now self.old.pairs) result }
        ensures asked { self.new ≡ asked self.old name.now }
    {
        match self.given(name) {
            Some(text) => number_of(text, least, greatest),
            None => Some(default),
        }
    }

    /// A power of two in a range, or the default; none where something else was given.
    pub fn power(&mut self, name: &str, least: u32, greatest: u32, default: u32) -> Option<u32>
        ensures value { ReadsAs (power least greatest default) (given name.now self.old.pairs) result }
        ensures asked { self.new ≡ asked self.old name.now }
    {
        match self.given(name) {
            Some(text) => power_of(text, least, greatest),
            None => Some(default),
        }
    }

    /// Whether `yes` was chosen; `no` is the default. It is none where something else was given.
    pub fn choice(&mut self, name: &str) -> Option<bool>
        ensures value { ReadsAs choice (given name.now self.old.pairs) result }
        ensures asked { self.new ≡ asked self.old name.now }
    {
        match self.given(name) {
            Some("yes") => Some(true),
            Some("no") | None => Some(false),
            Some(_) => None,
        }
    }
}
