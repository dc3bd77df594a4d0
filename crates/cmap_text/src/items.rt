//! The items of a text: keys with their values, sections, uses of other files, and tokens by themselves.

ghost use Rattle.std.specs.Prelude.{◌≡◌, ◌++◌, ℕ, List, [], ◌∷◌, None, Ok, Some, false, true, IfErr, OnOk};
ghost use Rattle.std.specs.Borrow.{Bor};
ghost use Rattle.std.specs.Option.{option_copied};
ghost use Rattle.cmap_values.specs.Outcomes.{RefusesWith};
ghost use Rattle.cmap_values.specs.declared.fault.Reason.TheVariants.{UseWithoutName};
ghost use Rattle.cmap_tokens.specs.TokenSeen.{token_seen};
ghost use Rattle.cmap_text.specs.EntriesSeen.{ReadsAs, WhereRefused};
ghost use Rattle.cmap_text.specs.TextReading.{all_said, item_said, nothing_said, opened_by, with_other, with_value};
ghost use Rattle.cmap_text.specs.TextSeen.{key_name, said_seen, values_seen};
ghost use Rattle.cmap_text.specs.TokenParsers.{followed_by, next_in};

use crate::keys::{Key, Values};
use crate::sections::{Section, read_section};
use crate::tokens::{TokenReader, is_executable, literal_name};
use crate::wrong_token::{WrongToken, wrong};
use cmap_tokens::token::Token;
use cmap_values::declarations::Lists;
use cmap_values::fault::{Fault, Reason};
use std::alloc::Global;

/// The content of the items that are read so far.
#[derive(Drop)]
pub(crate) struct Said<'d> {
    pub(crate) values: Values<'d>,
    pub(crate) lists: Lists,
    /// The names of the files that are used.
    pub(crate) uses: Vec<&'d [u8]>,
    /// The literal name that the last item begins with. A use takes it as its operand.
    pub(crate) operand: Option<&'d [u8]>,
}

impl<'d> Said<'d> {
    pub(crate) fn new(alloc: Global) -> Self
        ensures { said_seen result ≡ nothing_said }
    {
        Said {
            values: Values::new(),
            lists: Lists::new(alloc),
            uses: Vec::new(alloc),
            operand: None,
        }
    }
}

/// Adds a use of the file that the last item names.
fn add_use<'d>(uses: &mut Vec<&'d [u8]>, operand: Option<&'d [u8]>) -> Result<(), Fault<WrongToken>>
    ensures added { OnOk result ((name : Bor (List ℕ)) × (operand.entry ≡ Some name)
        × (uses.new.items ≡ uses.old.items ++ name ∷ [])) }
    ensures refused { IfErr result (RefusesWith (λ wrong. (option_copied operand.entry ≡ None)
        × (wrong ≡ record { is_token = true; reason = UseWithoutName }))) }
    ensures stays { WhereRefused (uses.new.items ≡ uses.old.items) result }
{
    let Some(name) = operand else {
        return Err(wrong(Reason::UseWithoutName));
    };
    uses.push(name)?;
    Ok(())
}

/// Reads all the items of a text.
pub(crate) fn read_items<'d>(
    reader: &mut TokenReader<'d>,
    said: &mut Said<'d>,
) -> Result<(), Fault<WrongToken>>
    ensures { ReadsAs (all_said (said_seen said.old) reader.old) (λ done. (said_seen said.new, reader.new))
        reader.new result }
{
    loop {
        match reader.next_token() {
            Ok(Some(token)) => read_item(reader, &token, said)?,
            Ok(None) => return Ok(()),
            Err(fault) => return Err(fault),
        }
    }
}

/// Reads the rest of an item after its first token.
pub(crate) fn read_item<'d>(
    reader: &mut TokenReader<'d>,
    first: &Token<'d>,
    said: &mut Said<'d>,
) -> Result<(), Fault<WrongToken>>
    ensures reads { ReadsAs (item_said (said_seen said.old) (token_seen first.now) reader.old)
        (λ done. (said_seen said.new, reader.new)) reader.new result }

    // An item at fault adds no more than its first token by itself, but a section keeps its entries.
    ensures fault { WhereRefused (opened_by (token_seen first.now) ≡ None
        → said_seen said.new ≡ with_other (said_seen said.old) (token_seen first.now)) result }
{
    let operand = said.operand;
    said.operand = literal_name(first);
    if let Some(section) = Section::opened_by(first) {
        return read_section(reader, section, &mut said.lists);
    }
    if is_executable(first, b"usecmap") {
        return add_use(&mut said.uses, operand);
    }
    if let Some(key) = Key::of(first) {
        return read_value(reader, key, said);
    }
    Ok(())
}

/// Reads the value of a key.
fn read_value<'d>(
    reader: &mut TokenReader<'d>,
    key: Key,
    said: &mut Said<'d>,
) -> Result<(), Fault<WrongToken>>
    ensures reads { ReadsAs (followed_by (λ value next. Ok (
      record {
        values = with_value (values_seen said.old.values) (key_name key) value;
        lists = (said_seen said.old).lists;
        uses = (said_seen said.old).uses;
        operand = (said_seen said.old).operand;
      },
      next,
    )) (next_in reader.old))
        (λ done. (said_seen said.new, reader.new)) reader.new result }
    ensures stays { WhereRefused (said_seen said.new ≡ said_seen said.old) result }
{
    let value = reader.next_token()?;
    said.values.set(key, value);
    Ok(())
}
