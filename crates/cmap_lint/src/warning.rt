//! The warnings, their names and their numbers.

ghost use Rattle.std.specs.Prelude.{◌≡◌, ◌≢◌, MatchOption};
ghost use Rattle.cmap_lint.specs.Warnings.{number};
ghost use Rattle.cmap_lint.specs.declared.warning.Warning.{Warning};

/// The warnings about a file.
#[derive(Clone, Copy)]
pub enum Warning {
    /// The file has no codespace range, no declaration and no use of another file.
    NothingDeclared,
    /// No layer has a codespace range.
    NoCodespace,
    /// Codes with a CID or a notdef lie in no codespace range.
    OutsideCodespace,
    /// Codes have two declarations in one list that disagree.
    Overlap,
    /// Declarations have a first code above their last code.
    InvertedRange,
    /// The ends of ranges differ in another byte than the last. Adobe Technical Note 5014.
    CrossesRow,
    /// Texts of a range have a last byte that counts on past 255. ISO 32000-1, 9.10.3.
    LastByte,
    /// Declarations of texts give no text for one of their codes.
    NoText,
    /// Texts have characters for private use.
    PrivateUse,
    /// Texts have code points that are noncharacters. The Unicode Standard, 23.7.
    Noncharacter,
    /// Texts have U+FFFD.
    ReplacementCharacter,
    /// Texts have U+0000.
    NullCharacter,
    /// Codes of the codespace, of up to two bytes, have no text.
    NoMapping,
    /// The CMapName isn't the name of the file.
    NameDiffers,
    /// A name ends in `-V`, and the writing mode isn't vertical.
    ModeDiffers,
    /// The number before a section isn't the number of its entries.
    CountDiffers,
    /// Sections have more than 100 entries. Adobe Technical Note 5014.
    LongSection,
    /// No `endcmap` comes after the last `begincmap`. Adobe Technical Note 5014.
    NoEndcmap,
    /// Codes have a length for which there is no codespace range.
    CodeLength,
    /// Hexadecimal strings of entries have an odd number of digits.
    OddDigits,
    /// Destinations have an odd number of bytes.
    OddText,
}

impl Warning {
    /// The name in reports.
    pub fn name(self) -> &'static str {
        match self {
            Warning::NothingDeclared => "nothing-declared",
            Warning::NoCodespace => "no-codespace",
            Warning::OutsideCodespace => "outside-codespace",
            Warning::Overlap => "overlap",
            Warning::InvertedRange => "inverted-range",
            Warning::CrossesRow => "crosses-row",
            Warning::LastByte => "last-byte",
            Warning::NoText => "no-text",
            Warning::PrivateUse => "private-use",
            Warning::Noncharacter => "noncharacter",
            Warning::ReplacementCharacter => "replacement-character",
            Warning::NullCharacter => "null-character",
            Warning::NoMapping => "no-mapping",
            Warning::NameDiffers => "name-differs",
            Warning::ModeDiffers => "mode-differs",
            Warning::CountDiffers => "count-differs",
            Warning::LongSection => "long-section",
            Warning::NoEndcmap => "no-endcmap",
            Warning::CodeLength => "code-length",
            Warning::OddDigits => "odd-digits",
            Warning::OddText => "odd-text",
        }
    }

    /// The number in the C interface: the rank of the warning in the order of reports.
    pub fn number(self) -> u32
        ensures { result ≡ number self }
    {
        match self {
            Warning::NothingDeclared => 0,
            Warning::NoCodespace => 1,
            Warning::OutsideCodespace => 2,
            Warning::Overlap => 3,
            Warning::InvertedRange => 4,
            Warning::CrossesRow => 5,
            Warning::LastByte => 6,
            Warning::NoText => 7,
            Warning::PrivateUse => 8,
            Warning::Noncharacter => 9,
            Warning::ReplacementCharacter => 10,
            Warning::NullCharacter => 11,
            Warning::NoMapping => 12,
            Warning::NameDiffers => 13,
            Warning::ModeDiffers => 14,
            Warning::CountDiffers => 15,
            Warning::LongSection => 16,
            Warning::NoEndcmap => 17,
            Warning::CodeLength => 18,
            Warning::OddDigits => 19,
            Warning::OddText => 20,
        }
    }

    /// The warning with a number.
    pub fn numbered(wanted: u32) -> Option<Warning>
        ensures { MatchOption result ((warning : Warning) → number warning ≢ wanted)
            (λ warning. number warning ≡ wanted) }
    {
        match wanted {
            0 => Some(Warning::NothingDeclared),
            1 => Some(Warning::NoCodespace),
            2 => Some(Warning::OutsideCodespace),
            3 => Some(Warning::Overlap),
            4 => Some(Warning::InvertedRange),
            5 => Some(Warning::CrossesRow),
            6 => Some(Warning::LastByte),
            7 => Some(Warning::NoText),
            8 => Some(Warning::PrivateUse),
            9 => Some(Warning::Noncharacter),
            10 => Some(Warning::ReplacementCharacter),
            11 => Some(Warning::NullCharacter),
            12 => Some(Warning::NoMapping),
            13 => Some(Warning::NameDiffers),
            14 => Some(Warning::ModeDiffers),
            15 => Some(Warning::CountDiffers),
            16 => Some(Warning::LongSection),
            17 => Some(Warning::NoEndcmap),
            18 => Some(Warning::CodeLength),
            19 => Some(Warning::OddDigits),
            20 => Some(Warning::OddText),
            _ => None,
        }
    }

    /// The warning with a name.
    pub fn of(name: &str) -> Option<Warning> {
        for number in 0..u32::MAX {
            let warning = Warning::numbered(number)?;
            if warning.name() == name {
                return Some(warning);
            }
        }
        None
    }
}
