//! A JSON text, written token by token.
ghost use Rattle.std.specs.Prelude.{◌≡◌, ◌++◌, ◌∷◌, [], OnOk, decimal};
ghost use Rattle.json.specs.Token.{begin_object, end_object, begin_array, end_array, key, string, number, boolean};
ghost use Rattle.json.specs.Token.{null};
ghost use Rattle.json.specs.Print.{print};

use json::Writer;
use std::alloc::{AllocError, Global};
use std::marker::Model;

/// A JSON text that is being written: its tokens. Their nesting is the caller's.
#[derive(Drop)]
pub struct TextWriter {
    writer: Writer,
}

impl Model for TextWriter {
    ghost use Rattle.std.specs.Prelude.{◌≡◌, List, []};
    ghost use Rattle.json.specs.Token.{Token, tokens_code};

    ghost Value = { List Token };

    ghost coded = { tokens_code };

    ghost view = { λ t. t.writer.tokens };

    ghost invariant = { λ t. t.writer.before ≡ [] };
}

impl TextWriter {
    /// No token yet.
    pub fn new(alloc: Global) -> TextWriter
        ensures { result ≡ [] }
    {
        TextWriter {
            writer: Writer::new(Vec::new(alloc)),
        }
    }

    /// The text of its tokens.
    pub fn into_text(self) -> Vec<u8>
        ensures { result.items ≡ print self }
    {
        let TextWriter { writer } = self;
        writer.into_inner()
    }

    /// Adds the begin of an object.
    ///
    /// # Errors
    ///
    /// `AllocError` where memory runs out.
    pub fn begin_object(&mut self) -> Result<(), AllocError>
        ensures { OnOk result (self.new ≡ self.old ++ begin_object ∷ []) }
    {
        self.writer.begin_object()
    }

    /// Adds the end of an object.
    ///
    /// # Errors
    ///
    /// `AllocError` where memory runs out.
    pub fn end_object(&mut self) -> Result<(), AllocError>
        ensures { OnOk result (self.new ≡ self.old ++ end_object ∷ []) }
    {
        self.writer.end_object()
    }

    /// Adds the begin of an array.
    ///
    /// # Errors
    ///
    /// `AllocError` where memory runs out.
    pub fn begin_array(&mut self) -> Result<(), AllocError>
        ensures { OnOk result (self.new ≡ self.old ++ begin_array ∷ []) }
    {
        self.writer.begin_array()
    }

    /// Adds the end of an array.
    ///
    /// # Errors
    ///
    /// `AllocError` where memory runs out.
    pub fn end_array(&mut self) -> Result<(), AllocError>
        ensures { OnOk result (self.new ≡ self.old ++ end_array ∷ []) }
    {
        self.writer.end_array()
    }

    /// Adds the name of a member of an object, in front of its value.
    ///
    /// # Errors
    ///
    /// `AllocError` where memory runs out.
    pub fn key(&mut self, name: &str) -> Result<(), AllocError>
        ensures { OnOk result (self.new ≡ self.old ++ key name.now ∷ []) }
    {
        self.writer.key(name)
    }

    /// Adds a text.
    ///
    /// # Errors
    ///
    /// `AllocError` where memory runs out.
    pub fn string(&mut self, text: &str) -> Result<(), AllocError>
        ensures { OnOk result (self.new ≡ self.old ++ string text.now ∷ []) }
    {
        self.writer.string(text)
    }

    /// Adds a number.
    ///
    /// # Errors
    ///
    /// `AllocError` where memory runs out.
    pub fn u64(&mut self, n: u64) -> Result<(), AllocError>
        ensures { OnOk result (self.new ≡ self.old ++ number (decimal n) ∷ []) }
    {
        self.writer.u64(n)
    }

    /// Adds `true` or `false`.
    ///
    /// # Errors
    ///
    /// `AllocError` where memory runs out.
    pub fn boolean(&mut self, truth: bool) -> Result<(), AllocError>
        ensures { OnOk result (self.new ≡ self.old ++ boolean truth ∷ []) }
    {
        self.writer.boolean(truth)
    }

    /// Adds `null`.
    ///
    /// # Errors
    ///
    /// `AllocError` where memory runs out.
    pub fn null(&mut self) -> Result<(), AllocError>
        ensures { OnOk result (self.new ≡ self.old ++ null ∷ []) }
    {
        self.writer.null()
    }
}
