//! The words of the command line.
ghost use Rattle.std.specs.Prelude.{◌≡◌, ◌==◌, ◌<◌, [], ◌∷◌, ◌++◌, IfSome, IfNone, OnOk, OnErr, length, slice_get};
ghost use Rattle.std.specs.Prelude.{Some};

use std::alloc::Global;
use std::marker::Model;
use tach_media::Memory;

/// A list of texts.
#[derive(Drop)]
pub struct Words {
    list: Vec<String>,
    alloc: Global,
}

impl Model for Words {
    ghost use Rattle.std.specs.Prelude.{List, ℕ, map, string_bytes};

    ghost Value = { List (List ℕ) };

    ghost view = { λ w. map string_bytes w.list.items };
}

impl Words {
    /// No words, which take no memory.
    pub fn new(alloc: Global) -> Self
        ensures { result ≡ [] }
    {
        Words {
            list: Vec::new(alloc),
            alloc,
        }
    }

    /// Adds a word at the end.
    ///
    /// # Errors
    ///
    /// `Memory` where there is none; the list stays as it was.
    pub fn push(&mut self, word: &str) -> Result<(), Memory>
        ensures ok { OnOk result (self.new ≡ self.old ++ word.now ∷ []) }
        ensures err { OnErr result (self.new ≡ self.old) }
    {
        let text = String::from_str(self.alloc, word)?;
        if self.list.push(text).is_err() {
            return Err(Memory);
        }
        Ok(())
    }

    /// How many words there are.
    pub fn len(&self) -> usize
        ensures { result ≡ length self.now }
    {
        self.list.len()
    }

    /// Whether there are none.
    pub fn is_empty(&self) -> bool
        ensures { result ≡ (length self.now == 0) }
    {
        self.list.is_empty()
    }

    /// The word at an index.
    pub fn get(&self, index: usize) -> &str
        requires { index < length self.now }
        ensures { slice_get self.now index ≡ Some result.now }
    {
        self.list[index].as_str()
    }

    /// The word, where there is one.
    pub fn one(&self) -> Option<&str>
        ensures found { IfSome result (λ word. self.now ≡ word.now ∷ []) }
        ensures none { IfNone result (length self.now ≡ 1 → ⊥) }
    {
        if self.len() != 1 {
            return None;
        }
        Some(self.get(0))
    }

    /// The words, where there are two.
    pub fn two(&self) -> Option<(&str, &str)>
        ensures found { IfSome result (λ w. self.now ≡ w.0.now ∷ w.1.now ∷ []) }
        ensures none { IfNone result (length self.now ≡ 2 → ⊥) }
    {
        if self.len() != 2 {
            return None;
        }
        Some((self.get(0), self.get(1)))
    }

    /// The words, where there are three.
    pub fn three(&self) -> Option<(&str, &str, &str)>
        ensures found { IfSome result (λ w. self.now ≡ w.0.now ∷ w.1.now ∷ w.2.now ∷ []) }
        ensures none { IfNone result (length self.now ≡ 3 → ⊥) }
    {
        if self.len() != 3 {
            return None;
        }
        Some((self.get(0), self.get(1), self.get(2)))
    }

    /// The words, where there are six.
    pub fn six(&self) -> Option<(&str, &str, &str, &str, &str, &str)>
        ensures found { IfSome result (λ w. self.now ≡ w.0.now ∷ w.1.now ∷ w.2.now ∷ w.3.now ∷ w.4.now ∷ w.5.now ∷ []) }
        ensures none { IfNone result (length self.now ≡ 6 → ⊥) }
    {
        if self.len() != 6 {
            return None;
        }
        Some((
            self.get(0),
            self.get(1),
            self.get(2),
            self.get(3),
            self.get(4),
            self.get(5),
        ))
    }
}
