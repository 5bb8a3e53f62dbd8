ghost use Rattle.std.specs.Prelude.{◌≡◌, ◌↔◌, [], ◌∷◌, ◌++◌, length, string_bytes, IsTrue, OnOk, OnErr, slice_get, option_copied};

use std::alloc::{AllocError, Global};
use std::marker::Model;

/// The words that a program is called with, without its own name. Contracts see the list of their
/// bytes.
#[derive(Debug, Drop)]
pub struct ArgList {
    words: Vec<String>,
}

impl Model for ArgList {
    ghost use Rattle.std.specs.Prelude.{List, ℕ, map, string_bytes};

    ghost Value = { List (List ℕ) };

    ghost view = { λ a. map string_bytes a.words.items };
}

impl ArgList {
    /// No words.
    pub fn new(alloc: Global) -> ArgList
        ensures { result ≡ [] }
    {
        ArgList {
            words: Vec::new(alloc),
        }
    }

    /// Puts a word behind the others. An `Err` changes nothing.
    pub fn push(&mut self, word: String) -> Result<(), AllocError>
        ensures ok { OnOk result (self.new ≡ self.old ++ string_bytes word ∷ []) }
        ensures err { OnErr result (self.new ≡ self.old) }
    {
        self.words.push(word)?;
        Ok(())
    }

    /// How many words there are.
    pub fn len(&self) -> usize
        ensures { result ≡ length self.now }
    {
        self.words.len()
    }

    /// Whether there is no word.
    pub fn is_empty(&self) -> bool
        ensures { IsTrue result ↔ (self.now ≡ []) }
    {
        self.words.is_empty()
    }

    /// The word at a place, from 0. It is `None` exactly where the place is not below the length.
    pub fn get(&self, place: usize) -> Option<&str>
        ensures { option_copied result ≡ slice_get self.now place }
    {
        match self.words.get(place) {
            Some(word) => Some(word.as_str()),
            None => None,
        }
    }
}

#[cfg(test)]
mod tests {
    use super::*;
    use std::test::Fail;

    #[test]
    fn words_come_back_in_their_order(rt: HostRuntime) -> Result<(), Fail> {
        let all = ["replay", "--receipts"];
        let mut words = ArgList::new(rt.alloc());
        assert!(rt; words.is_empty());
        for word in all {
            words.push(word.to_string(rt.alloc())?)?;
        }
        assert_eq!(rt; words.len(), 2);
        for (place, want) in [Some(all[0]), Some(all[1]), None].iter().enumerate() {
            assert_eq!(rt; words.get(place), *want);
        }
        Ok(())
    }
}
