//! A file of a bundle, or a bundle as a whole, that can't be written.

use cmap_binary_writer::Obstacle;

/// The file of a bundle, or the bundle as a whole, that can't be written, and the obstacle.
#[derive(Clone, Copy, Debug)]
pub struct Unwritable {
    /// The index of the file among the sources; `None` for the bundle as a whole.
    pub index: Option<usize>,
    pub obstacle: Obstacle,
}
