//! A code with its bytes.

ghost use Rattle.std.specs.Prelude.{◌≡◌, ◌++◌, MatchOption, OnOk, bytes_eq, ◌∷◌, []};
ghost use Rattle.cmap_values.specs.CodeLengths.{length_of};
ghost use Rattle.cmap_values.specs.Only.{HoldsOfNone};
ghost use Rattle.cmap_layers.specs.StringCodes.{BeginsInside, IsShortestInside};
ghost use Rattle.cmap_encode.specs.Codes.{code_bytes};

use cmap_layers::layers::Layers;
use cmap_values::code_length::CodeLength;
use std::alloc::AllocError;

/// A code, by its number and its length in bytes.
#[derive(Clone, Copy)]
pub(crate) struct Code {
    pub(crate) number: u32,
    pub(crate) len: CodeLength,
}

impl Code {
    /// The length of the shortest prefix of the code that lies in a codespace range, if there is such a prefix. The
    /// code itself is the longest of its prefixes.
    pub(crate) fn shortest_prefix(self, encoding: &Layers) -> Option<CodeLength>
        ensures { MatchOption result (HoldsOfNone (BeginsInside encoding.now (code_bytes self)))
            (λ len. IsShortestInside encoding.now (code_bytes self) (length_of len)) }
    {
        let bytes = self.number.to_be_bytes();
        let prefix = encoding.next_code(&bytes[4 - usize::from(self.len.count())..])?;
        if !prefix.in_codespace {
            return None;
        }
        CodeLength::of(prefix.byte_len)
    }

    /// Whether the code is the byte of a character.
    pub(crate) fn is_byte(self, character: char) -> bool
        ensures { result ≡ bytes_eq (code_bytes self) (character ∷ []) }
    {
        let bytes = self.number.to_be_bytes();
        match u8::try_from(character) {
            Ok(byte) => bytes[4 - usize::from(self.len.count())..] == [byte],
            Err(_) => false,
        }
    }

    /// Adds the bytes of the code to a string.
    pub(crate) fn push_to(self, string: &mut Vec<u8>) -> Result<(), AllocError>
        ensures { OnOk result (string.new.items ≡ string.old.items ++ code_bytes self) }
    {
        let bytes = self.number.to_be_bytes();
        string.extend_from_slice(&bytes[4 - usize::from(self.len.count())..])?;
        Ok(())
    }
}
