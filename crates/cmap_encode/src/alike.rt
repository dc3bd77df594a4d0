//! Characters of which one may stand for another.

ghost use Rattle.std.specs.Prelude.{◌≡◌, map};
ghost use Rattle.cmap_encode.specs.Alike.{alike_to, line_of, national_of};

/// Lines of characters that look or mean the same. Where no code shows a character of a line, the code of another
/// character of the line may stand for it: of the first character that has a code.
///
/// Spaces, hyphens and dashes; what JIS X 0208, KS X 1001 and their use in Windows show by other characters
/// of Unicode; singletons and letters that the Adobe Glyph List has under two numbers; and punctuation with
/// its forms for vertical writing.
const ALIKE: &[&[char]] = &[
    &[
        ' ', '\u{A0}', '\u{2000}', '\u{2001}', '\u{2002}', '\u{2003}', '\u{2004}', '\u{2005}',
        '\u{2006}', '\u{2007}', '\u{2008}', '\u{2009}', '\u{200A}', '\u{202F}', '\u{205F}',
    ],
    &['-', '\u{AD}', '\u{2010}', '\u{2011}'],
    &['\u{2014}', '\u{2015}', '\u{FE31}'],
    &['\u{2016}', '\u{2225}'],
    &['\u{2212}', '\u{FF0D}'],
    &['\u{223C}', '\u{301C}', '\u{FF5E}'],
    &['\u{A2}', '\u{FFE0}'],
    &['\u{A3}', '\u{FFE1}'],
    &['\u{A5}', '\u{FFE5}'],
    &['\u{A6}', '\u{FFE4}'],
    &['\u{AC}', '\u{FFE2}'],
    &['\u{AF}', '\u{2C9}', '\u{203E}', '\u{FFE3}'],
    &['\u{20A9}', '\u{FFE6}'],
    &['\u{B5}', '\u{3BC}'],
    &['\u{B7}', '\u{2219}'],
    &['\u{C5}', '\u{212B}'],
    &['K', '\u{212A}'],
    &['\u{162}', '\u{21A}'],
    &['\u{163}', '\u{21B}'],
    &['\u{394}', '\u{2206}'],
    &['\u{3A9}', '\u{2126}'],
    &['\u{2044}', '\u{2215}'],
    &['\u{FF0C}', '\u{FE10}'],
    &['\u{3001}', '\u{FE11}'],
    &['\u{3002}', '\u{FE12}'],
    &['\u{FF1A}', '\u{FE13}'],
    &['\u{FF1B}', '\u{FE14}'],
    &['\u{FF01}', '\u{FE15}'],
    &['\u{FF1F}', '\u{FE16}'],
    &['\u{3016}', '\u{FE17}'],
    &['\u{3017}', '\u{FE18}'],
    &['\u{2026}', '\u{FE19}'],
    &['\u{2025}', '\u{FE30}'],
    &['\u{2013}', '\u{FE32}'],
    &['\u{FF3F}', '\u{FE33}', '\u{FE34}'],
    &['\u{FF08}', '\u{FE35}'],
    &['\u{FF09}', '\u{FE36}'],
    &['\u{FF5B}', '\u{FE37}'],
    &['\u{FF5D}', '\u{FE38}'],
    &['\u{3014}', '\u{FE39}'],
    &['\u{3015}', '\u{FE3A}'],
    &['\u{3010}', '\u{FE3B}'],
    &['\u{3011}', '\u{FE3C}'],
    &['\u{300A}', '\u{FE3D}'],
    &['\u{300B}', '\u{FE3E}'],
    &['\u{3008}', '\u{FE3F}'],
    &['\u{3009}', '\u{FE40}'],
    &['\u{300C}', '\u{FE41}'],
    &['\u{300D}', '\u{FE42}'],
    &['\u{300E}', '\u{FE43}'],
    &['\u{300F}', '\u{FE44}'],
    &['\u{FF3B}', '\u{FE47}'],
    &['\u{FF3D}', '\u{FE48}'],
];

/// Lines of a character of ASCII and the characters that national versions of ISO 646 show by its byte.
const NATIONAL: &[&[char]] = &[
    &['\\', '\u{A5}', '\u{20A9}'],
    &['|', '\u{A6}', '\u{FFE8}'],
    &['~', '\u{203E}', '\u{303}'],
];

/// The line of characters that look or mean the same as this one.
pub(crate) fn alike_to(character: char) -> &'static [char]
    ensures { result.now ≡ alike_to character }
{
    line_of(ALIKE, character)
}

/// The line of a character of ASCII and the characters that national versions of ISO 646 show by its byte, if this
/// character is in such a line.
pub(crate) fn national_of(character: char) -> &'static [char]
    ensures { result.now ≡ national_of character }
{
    line_of(NATIONAL, character)
}

/// The line that has the character, or no characters.
fn line_of(lines: &'static [&'static [char]], character: char) -> &'static [char]
    ensures { result.now ≡ line_of (map (λ line. line.now) lines.now) character }
{
    for line in lines {
        if line.contains(&character) {
            return line;
        }
    }
    &[]
}
