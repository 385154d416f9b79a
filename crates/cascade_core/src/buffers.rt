//! The working memory of a stage.

use crate::tasks::CascadeTask;
use cascade_world::Concerned;
use pick_core::BoxCache;
use react_core::Outbox;

/// The working memory of a stage; no world depends on it.
#[derive(Drop)]
pub struct Buffers {
    /// The remaining tasks.
    pub tasks: Vec<CascadeTask>,
    /// The events of the last node or script that aren't tasks yet.
    pub replies: Outbox,
    /// The sensors that a viewer presses, while its pointer is handled.
    pub pressed: Vec<Concerned>,
    /// The boxes of the scene, up to date with its nodes.
    pub boxes: BoxCache,
}
