//! All warnings of a file.

use crate::characters::{CHARACTER_WARNINGS, characters};
use crate::codespaces::{has_codespace, no_codespace, no_mapping, outside_codespace};
use crate::finding::{Finding, Place};
use crate::identity::{mode_differs, name_differs};
use crate::overlaps::overlaps;
use crate::sections::Sections;
use crate::shapes::Shapes;
use crate::strings::Strings;
use crate::text_spans::no_text;
use crate::warning::Warning;
use cmap_layers::code_lengths::has_codes;
use cmap_layers::layer::Layer;
use cmap_layers::layers::Layers;
use cmap_values::code_length::CodeLength;
use std::alloc::{AllocError, Global};

/// An accepted file.
#[derive(Clone, Copy)]
pub struct Subject<'m> {
    /// The layers of the map of the file.
    pub map: &'m Layers,
    /// The bytes of the file, if it is a text.
    pub text: Option<&'m [u8]>,
    /// The last part of the path of the file, if the file has a path.
    pub file_name: Option<&'m [u8]>,
    /// Whether the file is meant as a map to Unicode.
    pub to_unicode: bool,
    /// The codes that are shown, in ascending order, each once.
    pub shown: &'m [u32],
}

/// The warnings of a file, in the order of their numbers.
pub fn findings_of<'m>(
    alloc: Global,
    subject: &Subject<'m>,
) -> Result<Vec<Finding<'m>>, AllocError> {
    let mut findings = Findings::new(alloc);
    findings.add(nothing_declared(subject.map));
    findings.add(no_codespace(subject.map));
    if let Some(layer) = subject.map.as_slice().first() {
        findings.add_of_layer(alloc, subject, layer);
        if subject.to_unicode {
            findings.add_to_unicode(alloc, subject, layer);
        }
    }
    findings.add(name_differs(subject.map, subject.file_name));
    findings.add(mode_differs(subject.map));
    if let Some(text) = subject.text {
        findings.add_of_text(alloc, subject, text);
    }
    findings.finish()
}

/// A warning if a file has no codespace range, no declaration and no use of another file.
pub fn nothing_declared<'m>(map: &Layers) -> Finding<'m> {
    let mut finding = Finding::new(Warning::NothingDeclared);
    if let [layer] = map.as_slice() {
        if layer.texts().decl_count() == 0 && !has_codes_of_any_length(map) {
            finding.add(1, Place::File);
        }
    }
    finding
}

/// Whether a map has a codespace range, or a declaration of CIDs or notdefs.
fn has_codes_of_any_length(map: &Layers) -> bool {
    for len in CodeLength::ALL {
        if has_codes(map, *len) {
            return true;
        }
    }
    false
}

/// The warnings found so far. If memory ran out for a warning, `finish` fails.
#[derive(Drop)]
struct Findings<'m> {
    found: Vec<Finding<'m>>,
    is_whole: bool,
}

impl<'m> Findings<'m> {
    fn new(alloc: Global) -> Findings<'m> {
        Findings {
            found: Vec::new(alloc),
            is_whole: true,
        }
    }

    /// Adds a warning, unless it concerns nothing.
    fn add(&mut self, finding: Finding<'m>) {
        if finding.count > 0 && self.found.push(finding).is_err() {
            self.is_whole = false;
        }
    }

    /// Adds a warning, or records that memory ran out for it.
    fn add_found(&mut self, finding: Result<Finding<'m>, AllocError>) {
        match finding {
            Ok(finding) => self.add(finding),
            Err(AllocError) => self.is_whole = false,
        }
    }

    /// Adds the warnings about the declarations of the top layer.
    fn add_of_layer(&mut self, alloc: Global, subject: &Subject<'m>, layer: &Layer) {
        if has_codespace(subject.map) {
            self.add_found(outside_codespace(alloc, subject, layer));
        }
        self.add_found(overlaps(alloc, subject, layer));
        let Shapes {
            inverted,
            crossing,
            passing,
        } = Shapes::of(alloc, subject, layer);
        self.add_found(inverted.finish(alloc));
        self.add_found(crossing.finish(alloc));
        self.add_found(passing.finish(alloc));
        self.add_found(no_text(alloc, subject, layer));
    }

    /// Adds the warnings about a map to Unicode.
    fn add_to_unicode(&mut self, alloc: Global, subject: &Subject<'m>, layer: &Layer) {
        for (warning, points) in CHARACTER_WARNINGS {
            self.add_found(characters(alloc, subject, layer, *warning, points));
        }
        self.add_found(no_mapping(alloc, subject));
    }

    /// Adds the warnings about the form of a text.
    fn add_of_text(&mut self, alloc: Global, subject: &Subject<'m>, text: &[u8]) {
        match Sections::of(alloc, subject, text) {
            Ok(sections) => self.add_of_sections(alloc, subject.map, sections),
            Err(AllocError) => self.is_whole = false,
        }
    }

    /// Adds the warnings about sections.
    fn add_of_sections(&mut self, alloc: Global, map: &Layers, sections: Sections<'m>) {
        let Sections {
            count_differs,
            long,
            no_endcmap,
            strings,
        } = sections;
        self.add(count_differs);
        self.add(long);
        self.add(no_endcmap);
        let Strings {
            code_length,
            odd_digits,
            odd_text,
            ..
        } = strings;
        if has_codespace(map) {
            self.add_found(code_length.finish(alloc));
        }
        self.add_found(odd_digits.finish(alloc));
        self.add_found(odd_text.finish(alloc));
    }

    fn finish(self) -> Result<Vec<Finding<'m>>, AllocError> {
        if self.is_whole {
            Ok(self.found)
        } else {
            Err(AllocError)
        }
    }
}
