//! A file as text.

ghost use Rattle.std.specs.Prelude.{◌≡◌, ◌++◌, IfErr, IfOk, OnOk, option_map};
ghost use Rattle.cmap_values.specs.FilesSeen.{file_seen};
ghost use Rattle.cmap_values.specs.DeclarationsSeen.{by_length_seen, lists_seen};
ghost use Rattle.cmap_text.specs.TextFiles.{IsTextFile};
ghost use Rattle.cmap_values.specs.Outcomes.{RefusesWith};
ghost use Rattle.cmap_text_writer.specs.Fits.{IsSayable};
ghost use Rattle.cmap_text_writer.specs.Layout.{IsLaidOut, has_none, is_to_unicode};
ghost use Rattle.cmap_text_writer.specs.Lengths.{length_by, text_length};
ghost use Rattle.cmap_text_writer.specs.Obstacles.{IsObstacle, NoTextSays};
ghost use Rattle.cmap_text_writer.specs.Written.{HasShortSections, IsWritten};
ghost use Rattle.cmap_text_writer.specs.Told.{Appends};
ghost use Rattle.cmap_text_writer.specs.FileItems.{comments_text, end_text, footer_text, header_text, resource_text, type_text};

use crate::check::check_file;
use crate::lists::push_lists;
use crate::metadata::{push_metadata, push_uses};
use crate::obstacle::Obstacle;
use crate::text_lengths::TextLengths;
use cmap_values::declarations::{ByLength, CidRange, Lists};
use cmap_values::fault::Fault;
use cmap_values::file::File;
use std::alloc::{AllocError, Global};

/// A text with the content of a file, in the layout of Adobe Technical Notes 5014 and 5411. A file
/// doesn't keep the length of the codes of texts; they have the length of the codespace ranges around
/// them.
///
/// A file that no text can represent is refused with its obstacle.
pub fn write_text(alloc: Global, file: &File<'_>) -> Result<Vec<u8>, Fault<Obstacle>>
    ensures written { IfOk result (λ text. IsTextFile text.items (file_seen file.now)) }
    ensures laid { IfOk result (λ text. IsLaidOut (length_by (file_seen file.now).lists.spaces) (file_seen file.now) text.items) }
    ensures short { IfOk result (λ text. HasShortSections text.items) }
    ensures err { IfErr result (RefusesWith (IsObstacle (file_seen file.now))) }
    ensures none { IfErr result (RefusesWith (λ obstacle. NoTextSays (file_seen file.now))) }
{
    write_text_by(alloc, file, TextLengths::by(&file.lists.spaces))
}

/// The text of `write_text`, with the given lengths of the codes of texts.
pub fn write_text_by(
    alloc: Global,
    file: &File<'_>,
    lengths: TextLengths,
) -> Result<Vec<u8>, Fault<Obstacle>>
    ensures written { IfOk result (λ text. IsTextFile text.items (file_seen file.now)) }
    ensures laid { IfOk result (λ text. IsLaidOut (text_length lengths) (file_seen file.now) text.items) }
    ensures short { IfOk result (λ text. HasShortSections text.items) }
    ensures err { IfErr result (RefusesWith (IsObstacle (file_seen file.now))) }
    ensures none { IfErr result (RefusesWith (λ obstacle. NoTextSays (file_seen file.now))) }
{
    check_file(alloc, file)?;
    let mut out = Vec::new(alloc);
    push_file(alloc, &mut out, file, lengths)?;
    Ok(out)
}

/// Writes a file.
fn push_file(
    alloc: Global,
    out: &mut Vec<u8>,
    file: &File<'_>,
    lengths: TextLengths,
) -> Result<(), AllocError>
    requires { IsSayable (file_seen file.now) }
    ensures { OnOk result (Appends out.old.items out.new.items (IsWritten (text_length lengths) (file_seen file.now))) }
{
    push_comments(out, &file.metadata.name)?;
    push_header(out, is_to_unicode(&file.lists))?;
    push_uses(out, &file.uses)?;
    push_metadata(out, &file.metadata)?;
    push_lists(alloc, out, &file.lists, lengths)?;
    push_footer(out, file.metadata.name.is_some())
}

/// Whether codes stand for Unicode texts only, and not for CIDs.
fn is_to_unicode(lists: &Lists) -> bool
    ensures { result ≡ is_to_unicode (lists_seen lists.now) }
{
    !lists.bfs.is_empty() && has_none(&lists.cids) && has_none(&lists.notdefs)
}

/// Whether there is no declaration for codes of any length.
fn has_none(lists: &ByLength<Vec<CidRange>>) -> bool
    ensures { result ≡ has_none (by_length_seen lists.now) }
{
    lists.one.is_empty() && lists.two.is_empty() && lists.three.is_empty() && lists.four.is_empty()
}

/// Writes the comments before a file of this name.
fn push_comments(out: &mut Vec<u8>, name: &Option<Vec<u8>>) -> Result<(), AllocError>
    ensures { OnOk result (out.new.items ≡ out.old.items
        ++ comments_text (option_map (λ name. name.items) name.now)) }
{
    out.extend_from_slice(b"%!PS-Adobe-3.0 Resource-CMap\n")?;
    match name {
        Some(name) => push_resource(out, name),
        None => Ok(()),
    }
}

/// Writes the comment that names the resource.
fn push_resource(out: &mut Vec<u8>, name: &[u8]) -> Result<(), AllocError>
    ensures { OnOk result (out.new.items ≡ out.old.items ++ resource_text name.now) }
{
    out.extend_from_slice(b"%%BeginResource: CMap (")?;
    out.extend_from_slice(name)?;
    out.extend_from_slice(b")\n")?;
    Ok(())
}

/// Writes the first lines.
fn push_header(out: &mut Vec<u8>, is_to_unicode: bool) -> Result<(), AllocError>
    ensures { OnOk result (out.new.items ≡ out.old.items ++ header_text is_to_unicode) }
{
    out.extend_from_slice(b"/CIDInit /ProcSet findresource begin\n12 dict begin\nbegincmap\n")?;
    push_type(out, is_to_unicode)
}

/// Writes the type of the CMap: 2 where codes stand for Unicode texts only. Adobe Technical Note 5411.
fn push_type(out: &mut Vec<u8>, is_to_unicode: bool) -> Result<(), AllocError>
    ensures { OnOk result (out.new.items ≡ out.old.items ++ type_text is_to_unicode) }
{
    out.extend_from_slice(if is_to_unicode {
        b"/CMapType 2 def\n"
    } else {
        b"/CMapType 1 def\n"
    })
}

/// Writes the last lines.
fn push_footer(out: &mut Vec<u8>, has_name: bool) -> Result<(), AllocError>
    ensures { OnOk result (out.new.items ≡ out.old.items ++ footer_text has_name) }
{
    out.extend_from_slice(b"endcmap\nCMapName currentdict /CMap defineresource pop\nend\nend\n")?;
    push_end(out, has_name)
}

/// Writes the comments after a file. A resource that has a name ends with a comment of its own.
fn push_end(out: &mut Vec<u8>, has_name: bool) -> Result<(), AllocError>
    ensures { OnOk result (out.new.items ≡ out.old.items ++ end_text has_name) }
{
    if has_name {
        out.extend_from_slice(b"%%EndResource\n%%EOF\n")
    } else {
        out.extend_from_slice(b"%%EOF\n")
    }
}
