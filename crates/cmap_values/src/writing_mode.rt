//! The writing mode.

ghost use Rattle.std.specs.Prelude.{◌≡◌, option_map};
ghost use Rattle.cmap_values.specs.Metadata.{mode_numbered};
ghost use Rattle.cmap_values.specs.MetadataSeen.{mode_seen};

/// The direction of a text: horizontal, unless a file states otherwise.
#[derive(Clone, Copy, Debug, Default, PartialEq, Eq)]
pub enum WritingMode {
    #[default]
    Horizontal,
    Vertical,
}

impl WritingMode {
    /// The mode with this number in a file: 0 is horizontal, 1 is vertical. `None` for any other
    /// number.
    pub fn numbered(number: u8) -> Option<WritingMode>
        ensures { option_map mode_seen result ≡ mode_numbered number }
    {
        match number {
            0 => Some(WritingMode::Horizontal),
            1 => Some(WritingMode::Vertical),
            _ => None,
        }
    }
}
