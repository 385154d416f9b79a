//! What a round knows: the notes of the round before, and what was refused.

use crate::notes::Note;
use x3d_values::Items;

/// What a round knows of the tree: the notes of the round before, which are `None` in the first
/// round, and the lines that are refused: each part that begins on one of them is left out.
#[derive(Drop)]
pub struct Known {
    pub notes: Option<Items<Note>>,
    pub refused: Items<u32>,
}
