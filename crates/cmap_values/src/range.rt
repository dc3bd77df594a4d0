//! The codes that one declaration of a CMap is for.

ghost use Rattle.std.specs.Prelude.{◌≡◌};
ghost use Rattle.cmap_values.specs.Spans.{Span};

/// The codes from `start` to `end`, both included; no codes if `start` is above `end`.
#[derive(Clone, Copy, Debug)]
pub struct Range {
    /// The first code.
    pub start: u32,
    /// The last code.
    pub end: u32,
}

/// A declaration for the codes of a range, such as a range or a single character of a CMap (ISO
/// 32000, CMap files).
pub trait HasRange: Drop {
    // The value alone determines its range.
    ghost span: { Self → Span };

    /// The codes that the declaration contains.
    fn range(&self) -> &Range
        ensures start { result.now.start ≡ (span self.now).start }
        ensures end { result.now.end ≡ (span self.now).end };
}
