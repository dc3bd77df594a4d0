//! Keys: literal names that take the next token as their value.

ghost use Rattle.std.specs.Prelude.{◌≡◌, ◌↔◌, IfOk, IsTrue, is_some, option_map};
ghost use Rattle.cmap_tokens.specs.TokenSeen.{token_seen};
ghost use Rattle.cmap_values.specs.MetadataSeen.{collection_seen, metadata_seen, mode_seen};
ghost use Rattle.cmap_values.specs.Only.{IsOnly};
ghost use Rattle.cmap_text.specs.TextFiles.{GivesText, IsCollection, IsKey, collection_of, mode_in, name_in, supplement_in};
ghost use Rattle.cmap_text.specs.TextReading.{AreSaid, key_in, key_named, no_values, with_value};
ghost use Rattle.cmap_text.specs.TextSeen.{key_name, values_seen};

use cmap_tokens::token::{Number, Token};
use cmap_values::character_collection::{CharacterCollection, CidFamily};
use cmap_values::metadata::Metadata;
use cmap_values::writing_mode::WritingMode;
use std::alloc::{AllocError, Global};

/// The keys of the metadata of a file.
#[derive(Clone, Copy)]
pub(crate) enum Key {
    Registry,
    Ordering,
    Supplement,
    CMapName,
    WMode,
}

impl Key {
    /// The key that a token is.
    pub(crate) fn of(token: &Token<'_>) -> Option<Key>
        ensures { option_map key_name result ≡ key_in (token_seen token.now) }
    {
        match token {
            Token::Name(name) if name.is_literal() => Key::named(name.as_bytes()),
            _ => None,
        }
    }

    /// The key of this name.
    fn named(name: &[u8]) -> Option<Key>
        ensures { option_map key_name result ≡ key_named name.now }
    {
        if name == b"Registry".as_slice() {
            Some(Key::Registry)
        } else if name == b"Ordering".as_slice() {
            Some(Key::Ordering)
        } else if name == b"Supplement".as_slice() {
            Some(Key::Supplement)
        } else if name == b"CMapName".as_slice() {
            Some(Key::CMapName)
        } else if name == b"WMode".as_slice() {
            Some(Key::WMode)
        } else {
            None
        }
    }
}

/// Whether a token is a key, whose value is the next token.
pub fn is_key(token: &Token<'_>) -> bool
    ensures { IsTrue result ↔ IsKey (token_seen token.now) }
{
    Key::of(token).is_some()
}

/// Whether a literal name with these bytes is a key.
pub fn is_key_name(name: &[u8]) -> bool
    ensures { result ≡ is_some (key_named name.now) }
{
    Key::named(name).is_some()
}

/// The last value of each key. The value is `None` if there is no such key, or if the last such key
/// ends the file.
#[derive(Clone, Copy)]
pub(crate) struct Values<'d> {
    registry: Option<Token<'d>>,
    ordering: Option<Token<'d>>,
    supplement: Option<Token<'d>>,
    name: Option<Token<'d>>,
    mode: Option<Token<'d>>,
}

impl<'d> Values<'d> {
    /// No key has a value.
    pub(crate) fn new() -> Self
        ensures { values_seen result ≡ no_values }
    {
        Values {
            registry: None,
            ordering: None,
            supplement: None,
            name: None,
            mode: None,
        }
    }

    /// Sets the value of the key.
    pub(crate) fn set(&mut self, key: Key, value: Option<Token<'d>>)
        ensures { values_seen self.new
            ≡ with_value (values_seen self.old) (key_name key) (option_map token_seen value.entry) }
    {
        match key {
            Key::Registry => self.registry = value,
            Key::Ordering => self.ordering = value,
            Key::Supplement => self.supplement = value,
            Key::CMapName => self.name = value,
            Key::WMode => self.mode = value,
        }
    }

    /// The metadata that the values state.
    pub(crate) fn metadata(&self, alloc: Global) -> Result<Metadata, AllocError>
        ensures { IfOk result
            (λ metadata. IsOnly (AreSaid (values_seen self.now)) (metadata_seen metadata)) }
    {
        Ok(Metadata {
            character_collection: self.character_collection(alloc)?,
            name: name_of(alloc, self.name)?,
            writing_mode: mode_of(self.mode),
        })
    }

    /// The character collection; `None` unless all its parts are present.
    fn character_collection(&self, alloc: Global) -> Result<Option<CharacterCollection>, AllocError>
        ensures { let values = values_seen self.now in IfOk result (λ found.
            IsOnly (IsCollection values.registry values.ordering values.supplement)
            (option_map collection_seen found)) }
    {
        let registry = text_of(alloc, self.registry)?;
        let ordering = text_of(alloc, self.ordering)?;
        collection_of(alloc, registry, ordering, supplement_of(self.supplement))
    }
}

/// The character collection of these parts; `None` unless all parts are present.
fn collection_of(
    alloc: Global,
    registry: Option<Vec<u8>>,
    ordering: Option<Vec<u8>>,
    supplement: Option<i32>,
) -> Result<Option<CharacterCollection>, AllocError>
    ensures { IfOk result (λ found. option_map collection_seen found
        ≡ collection_of (option_map (λ bytes. bytes.items) registry)
        (option_map (λ bytes. bytes.items) ordering) supplement) }
{
    match (registry, ordering, supplement) {
        (Some(registry), Some(ordering), Some(supplement)) => {
            let family = CidFamily::from_registry_ordering(alloc, &registry, &ordering)?;
            Ok(Some(CharacterCollection { family, supplement }))
        }
        _ => Ok(None),
    }
}

/// The text of a registry or an ordering: the bytes that a string stands for, or the bytes of a name.
fn text_of(alloc: Global, value: Option<Token<'_>>) -> Result<Option<Vec<u8>>, AllocError>
    ensures { IfOk result (λ text. IsOnly (GivesText (option_map token_seen value.entry))
        (option_map (λ bytes. bytes.items) text)) }
{
    match value {
        Some(Token::String(string)) => {
            let mut text = Vec::new(alloc);
            string.decode_into(&mut text)?;
            Ok(Some(text))
        }
        _ => name_of(alloc, value),
    }
}

/// The number of a supplement, a signed 32-bit integer.
fn supplement_of(value: Option<Token<'_>>) -> Option<i32>
    ensures { result ≡ supplement_in (option_map token_seen value.entry) }
{
    match value {
        Some(Token::Number(Number::Integer(number))) => i32::try_from(number).ok(),
        _ => None,
    }
}

/// The name of the file, if the value is a name.
fn name_of(alloc: Global, value: Option<Token<'_>>) -> Result<Option<Vec<u8>>, AllocError>
    ensures { IfOk result (λ name. option_map (λ bytes. bytes.items) name
        ≡ name_in (option_map token_seen value.entry)) }
{
    match value {
        Some(Token::Name(name)) => Ok(Some(Vec::from_slice(alloc, name.as_bytes())?)),
        _ => Ok(None),
    }
}

/// The writing mode: 0 is horizontal, 1 vertical.
fn mode_of(value: Option<Token<'_>>) -> Option<WritingMode>
    ensures { option_map mode_seen result ≡ mode_in (option_map token_seen value.entry) }
{
    match value {
        Some(Token::Number(Number::Integer(number))) => {
            WritingMode::numbered(u8::try_from(number).ok()?)
        }
        _ => None,
    }
}
