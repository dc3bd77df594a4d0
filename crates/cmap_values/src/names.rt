//! Names of CMaps.

ghost use Rattle.std.specs.Prelude.{◌≡◌, ℕ, List, ◌<◌, [], Some, IfSome, IsSome, slice_index_or};
ghost use Rattle.cmap_values.specs.CMapNames.{IsNameOf, IsSameName, index_of_name, name_bytes};
ghost use Rattle.cmap_values.specs.Names.{known_names, index_of_text};
ghost use Rattle.cmap_values.specs.declared.names.CMapName.{CMapName};

use std::{fmt, str};

/// The number of a character in a character collection. Adobe Technical Note 5014.
pub type Cid = u32;

/// The name of a CMap: one of the predefined CMaps of ISO 32000-1, 9.7.5.2, and of the ToUnicode
/// mapping files of Adobe Technical Note 5411, or any other name.
///
/// Equality is derived: it compares the variant, and for `Custom` the bytes. So a `Custom` that a
/// caller makes directly from the text of a known name isn't equal to the known name; `from_bytes`
/// makes no such `Custom`.
#[derive(Clone, Copy, PartialEq, Eq)]
pub enum CMapName<'a> {
    /// `83pv-RKSJ-H`
    N83pvRksjH,
    /// `90ms-RKSJ-H`
    N90msRksjH,
    /// `90ms-RKSJ-V`
    N90msRksjV,
    /// `90msp-RKSJ-H`
    N90mspRksjH,
    /// `90msp-RKSJ-V`
    N90mspRksjV,
    /// `90pv-RKSJ-H`
    N90pvRksjH,
    /// `Add-RKSJ-H`
    AddRksjH,
    /// `Add-RKSJ-V`
    AddRksjV,
    /// `Adobe-CNS1-UCS2`
    AdobeCns1Ucs2,
    /// `Adobe-GB1-UCS2`
    AdobeGb1Ucs2,
    /// `Adobe-Japan1-UCS2`
    AdobeJapan1Ucs2,
    /// `Adobe-Korea1-UCS2`
    AdobeKorea1Ucs2,
    /// `B5pc-H`
    B5pcH,
    /// `B5pc-V`
    B5pcV,
    /// `CNS-EUC-H`
    CnsEucH,
    /// `CNS-EUC-V`
    CnsEucV,
    /// `ETen-B5-H`
    ETenB5H,
    /// `ETen-B5-V`
    ETenB5V,
    /// `ETenms-B5-H`
    ETenmsB5H,
    /// `ETenms-B5-V`
    ETenmsB5V,
    /// `EUC-H`
    EucH,
    /// `EUC-V`
    EucV,
    /// `Ext-RKSJ-H`
    ExtRksjH,
    /// `Ext-RKSJ-V`
    ExtRksjV,
    /// `GB-EUC-H`
    GbEucH,
    /// `GB-EUC-V`
    GbEucV,
    /// `GBK-EUC-H`
    GbkEucH,
    /// `GBK-EUC-V`
    GbkEucV,
    /// `GBK2K-H`
    Gbk2kH,
    /// `GBK2K-V`
    Gbk2kV,
    /// `GBKp-EUC-H`
    GbkpEucH,
    /// `GBKp-EUC-V`
    GbkpEucV,
    /// `GBpc-EUC-H`
    GbpcEucH,
    /// `GBpc-EUC-V`
    GbpcEucV,
    /// `H`
    H,
    /// `HKscs-B5-H`
    HKscsB5H,
    /// `HKscs-B5-V`
    HKscsB5V,
    /// `Identity-H`
    IdentityH,
    /// `Identity-V`
    IdentityV,
    /// `KSC-EUC-H`
    KscEucH,
    /// `KSC-EUC-V`
    KscEucV,
    /// `KSCms-UHC-H`
    KscmsUhcH,
    /// `KSCms-UHC-HW-H`
    KscmsUhcHwH,
    /// `KSCms-UHC-HW-V`
    KscmsUhcHwV,
    /// `KSCms-UHC-V`
    KscmsUhcV,
    /// `KSCpc-EUC-H`
    KscpcEucH,
    /// `UniCNS-UCS2-H`
    UniCnsUcs2H,
    /// `UniCNS-UCS2-V`
    UniCnsUcs2V,
    /// `UniCNS-UTF16-H`
    UniCnsUtf16H,
    /// `UniCNS-UTF16-V`
    UniCnsUtf16V,
    /// `UniGB-UCS2-H`
    UniGbUcs2H,
    /// `UniGB-UCS2-V`
    UniGbUcs2V,
    /// `UniGB-UTF16-H`
    UniGbUtf16H,
    /// `UniGB-UTF16-V`
    UniGbUtf16V,
    /// `UniJIS-UCS2-H`
    UniJisUcs2H,
    /// `UniJIS-UCS2-HW-H`
    UniJisUcs2HwH,
    /// `UniJIS-UCS2-HW-V`
    UniJisUcs2HwV,
    /// `UniJIS-UCS2-V`
    UniJisUcs2V,
    /// `UniJIS-UTF16-H`
    UniJisUtf16H,
    /// `UniJIS-UTF16-V`
    UniJisUtf16V,
    /// `UniKS-UCS2-H`
    UniKsUcs2H,
    /// `UniKS-UCS2-V`
    UniKsUcs2V,
    /// `UniKS-UTF16-H`
    UniKsUtf16H,
    /// `UniKS-UTF16-V`
    UniKsUtf16V,
    /// `V`
    V,
    /// Any other name, by its bytes.
    Custom(&'a [u8]),
}

/// The known names, in the order of their texts.
pub const KNOWN_NAMES: &[CMapName<'static>] = &[
    CMapName::N83pvRksjH,
    CMapName::N90msRksjH,
    CMapName::N90msRksjV,
    CMapName::N90mspRksjH,
    CMapName::N90mspRksjV,
    CMapName::N90pvRksjH,
    CMapName::AddRksjH,
    CMapName::AddRksjV,
    CMapName::AdobeCns1Ucs2,
    CMapName::AdobeGb1Ucs2,
    CMapName::AdobeJapan1Ucs2,
    CMapName::AdobeKorea1Ucs2,
    CMapName::B5pcH,
    CMapName::B5pcV,
    CMapName::CnsEucH,
    CMapName::CnsEucV,
    CMapName::ETenB5H,
    CMapName::ETenB5V,
    CMapName::ETenmsB5H,
    CMapName::ETenmsB5V,
    CMapName::EucH,
    CMapName::EucV,
    CMapName::ExtRksjH,
    CMapName::ExtRksjV,
    CMapName::GbEucH,
    CMapName::GbEucV,
    CMapName::GbkEucH,
    CMapName::GbkEucV,
    CMapName::Gbk2kH,
    CMapName::Gbk2kV,
    CMapName::GbkpEucH,
    CMapName::GbkpEucV,
    CMapName::GbpcEucH,
    CMapName::GbpcEucV,
    CMapName::H,
    CMapName::HKscsB5H,
    CMapName::HKscsB5V,
    CMapName::IdentityH,
    CMapName::IdentityV,
    CMapName::KscEucH,
    CMapName::KscEucV,
    CMapName::KscmsUhcH,
    CMapName::KscmsUhcHwH,
    CMapName::KscmsUhcHwV,
    CMapName::KscmsUhcV,
    CMapName::KscpcEucH,
    CMapName::UniCnsUcs2H,
    CMapName::UniCnsUcs2V,
    CMapName::UniCnsUtf16H,
    CMapName::UniCnsUtf16V,
    CMapName::UniGbUcs2H,
    CMapName::UniGbUcs2V,
    CMapName::UniGbUtf16H,
    CMapName::UniGbUtf16V,
    CMapName::UniJisUcs2H,
    CMapName::UniJisUcs2HwH,
    CMapName::UniJisUcs2HwV,
    CMapName::UniJisUcs2V,
    CMapName::UniJisUtf16H,
    CMapName::UniJisUtf16V,
    CMapName::UniKsUcs2H,
    CMapName::UniKsUcs2V,
    CMapName::UniKsUtf16H,
    CMapName::UniKsUtf16V,
    CMapName::V,
];

/// How many names are known.
pub const KNOWN_COUNT: usize = 65;

/// Shows the text of the name as a string, or its bytes if they aren't UTF-8.
impl fmt::Debug for CMapName<'_> {
    fn fmt<W: fmt::Write>(&self, f: &mut fmt::Formatter<W>) -> fmt::Result {
        match str::from_utf8(self.text()) {
            Ok(text) => fmt::Debug::fmt(text, f),
            Err(_) => fmt::Debug::fmt(self.text(), f),
        }
    }
}

impl<'a> CMapName<'a> {
    /// The name with this text; `Custom` for a text that no known name has, such as the empty text.
    pub fn from_bytes(bytes: &'a [u8]) -> CMapName<'a>
        ensures name { IsNameOf bytes.now result }

        // The index of the name is the index of the text.
        ensures index { index_of_name result ≡ index_of_text bytes.now }

        // A text has one name.
        ensures only { (other : CMapName) → IsNameOf bytes.now other → IsSameName other result }
    {
        match index_of(bytes) {
            Some(index) => known_name(index),
            None => CMapName::Custom(bytes),
        }
    }

    /// The text of this name, without the slash that stands before it in a file.
    pub fn to_bytes(&self) -> &'a [u8]
        ensures text { result.now ≡ name_bytes self.now }

        // A known name is the name of its text. A `Custom` that a caller makes directly may have a
        // known text.
        ensures known { IsSome (index_of_name self.now) → IsNameOf result.now self.now }
    {
        self.text()
    }

    fn text(&self) -> &'a [u8]
        ensures { result.now ≡ name_bytes self.now }
    {
        match self {
            CMapName::N83pvRksjH => b"83pv-RKSJ-H",
            CMapName::N90msRksjH => b"90ms-RKSJ-H",
            CMapName::N90msRksjV => b"90ms-RKSJ-V",
            CMapName::N90mspRksjH => b"90msp-RKSJ-H",
            CMapName::N90mspRksjV => b"90msp-RKSJ-V",
            CMapName::N90pvRksjH => b"90pv-RKSJ-H",
            CMapName::AddRksjH => b"Add-RKSJ-H",
            CMapName::AddRksjV => b"Add-RKSJ-V",
            CMapName::AdobeCns1Ucs2 => b"Adobe-CNS1-UCS2",
            CMapName::AdobeGb1Ucs2 => b"Adobe-GB1-UCS2",
            CMapName::AdobeJapan1Ucs2 => b"Adobe-Japan1-UCS2",
            CMapName::AdobeKorea1Ucs2 => b"Adobe-Korea1-UCS2",
            CMapName::B5pcH => b"B5pc-H",
            CMapName::B5pcV => b"B5pc-V",
            CMapName::CnsEucH => b"CNS-EUC-H",
            CMapName::CnsEucV => b"CNS-EUC-V",
            CMapName::ETenB5H => b"ETen-B5-H",
            CMapName::ETenB5V => b"ETen-B5-V",
            CMapName::ETenmsB5H => b"ETenms-B5-H",
            CMapName::ETenmsB5V => b"ETenms-B5-V",
            CMapName::EucH => b"EUC-H",
            CMapName::EucV => b"EUC-V",
            CMapName::ExtRksjH => b"Ext-RKSJ-H",
            CMapName::ExtRksjV => b"Ext-RKSJ-V",
            CMapName::GbEucH => b"GB-EUC-H",
            CMapName::GbEucV => b"GB-EUC-V",
            CMapName::GbkEucH => b"GBK-EUC-H",
            CMapName::GbkEucV => b"GBK-EUC-V",
            CMapName::Gbk2kH => b"GBK2K-H",
            CMapName::Gbk2kV => b"GBK2K-V",
            CMapName::GbkpEucH => b"GBKp-EUC-H",
            CMapName::GbkpEucV => b"GBKp-EUC-V",
            CMapName::GbpcEucH => b"GBpc-EUC-H",
            CMapName::GbpcEucV => b"GBpc-EUC-V",
            CMapName::H => b"H",
            CMapName::HKscsB5H => b"HKscs-B5-H",
            CMapName::HKscsB5V => b"HKscs-B5-V",
            CMapName::IdentityH => b"Identity-H",
            CMapName::IdentityV => b"Identity-V",
            CMapName::KscEucH => b"KSC-EUC-H",
            CMapName::KscEucV => b"KSC-EUC-V",
            CMapName::KscmsUhcH => b"KSCms-UHC-H",
            CMapName::KscmsUhcHwH => b"KSCms-UHC-HW-H",
            CMapName::KscmsUhcHwV => b"KSCms-UHC-HW-V",
            CMapName::KscmsUhcV => b"KSCms-UHC-V",
            CMapName::KscpcEucH => b"KSCpc-EUC-H",
            CMapName::UniCnsUcs2H => b"UniCNS-UCS2-H",
            CMapName::UniCnsUcs2V => b"UniCNS-UCS2-V",
            CMapName::UniCnsUtf16H => b"UniCNS-UTF16-H",
            CMapName::UniCnsUtf16V => b"UniCNS-UTF16-V",
            CMapName::UniGbUcs2H => b"UniGB-UCS2-H",
            CMapName::UniGbUcs2V => b"UniGB-UCS2-V",
            CMapName::UniGbUtf16H => b"UniGB-UTF16-H",
            CMapName::UniGbUtf16V => b"UniGB-UTF16-V",
            CMapName::UniJisUcs2H => b"UniJIS-UCS2-H",
            CMapName::UniJisUcs2HwH => b"UniJIS-UCS2-HW-H",
            CMapName::UniJisUcs2HwV => b"UniJIS-UCS2-HW-V",
            CMapName::UniJisUcs2V => b"UniJIS-UCS2-V",
            CMapName::UniJisUtf16H => b"UniJIS-UTF16-H",
            CMapName::UniJisUtf16V => b"UniJIS-UTF16-V",
            CMapName::UniKsUcs2H => b"UniKS-UCS2-H",
            CMapName::UniKsUcs2V => b"UniKS-UCS2-V",
            CMapName::UniKsUtf16H => b"UniKS-UTF16-H",
            CMapName::UniKsUtf16V => b"UniKS-UTF16-V",
            CMapName::V => b"V",
            CMapName::Custom(bytes) => bytes,
        }
    }

    /// The index of the name among the known names; `None` for a `Custom`, whatever its text is.
    pub fn index(self) -> Option<usize>
        ensures { result ≡ index_of_name self.entry }
    {
        match self {
            CMapName::Custom(_) => None,
            known => index_of(known.text()),
        }
    }
}

/// The index of the known name with this text.
fn index_of(text: &[u8]) -> Option<usize>
    ensures index { result ≡ index_of_text text.now }
    ensures known { IfSome result (λ index.
        (index < KNOWN_COUNT) × (slice_index_or known_names index [] ≡ text.now)) }
{
    for index in 0..KNOWN_COUNT {
        if known_name(index).text() == text {
            return Some(index);
        }
    }
    None
}

/// The known name at an index, in the order of their texts.
fn known_name<'a>(at: usize) -> CMapName<'a>
    requires { at < KNOWN_COUNT }
    ensures { index_of_name result ≡ Some at }
{
    KNOWN_NAMES[at]
}
