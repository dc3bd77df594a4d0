//! Sources of the files that other files use.

ghost use Rattle.std.specs.Prelude.{ℕ, List, Option};
ghost use Rattle.std.specs.Option.{option_copied};

/// A source of files: it finds the bytes of a file by the text of its name.
///
/// A source gives a name the same answer each time. Otherwise the resulting map isn't specified.
pub trait Source {
    /// The source may be asked for any text.
    ghost can_ask: { Self → Type 0 };

    /// The source may answer this text with these bytes. The contract of a caller can thus name the
    /// answers of a source; the answers of a function, such as `CMap::parse` takes, have no name.
    ghost answers: { Self → List ℕ → Option (List ℕ) → Type 0 };

    /// The file of this name; `None` if no file has the name.
    fn file(&self, name: &[u8]) -> Option<&[u8]>
        requires { can_ask self.now }
        ensures { answers self.now name.now (option_copied result) };
}
