//! What a viewer's ray hits: the nearest Box of a scene, the sensors that the hit concerns, and the
//! point of the hit in their coordinates.
//!
//! | Modules | Content |
//! |---|---|
//! | `walk`, `nearest`, `hit`, `trail` | a walk over the scene for the nearest hit |
//! | `cache`, `gather`, `row`, `renewal`, `ranges` | boxes of a state, for rays without a walk |
//! | `tree`, `cover`, `runs` | boxes around runs of boxes, which a ray passes over |
//! | `look`, `motion`, `numbers` | what a ray sees of a node |
//! | `sensors`, `local` | the sensors of a hit, and its point in their coordinates |
//! | `track`, `paths`, `track_motion` | where a ray meets the plane of a drag |
//! | `laws`, `tree_laws`, `track_laws` | laws |
#![tactic(auto)]

mod cache;
mod cover;
mod gather;
mod hit;
mod laws;
mod local;
mod look;
mod motion;
mod nearest;
mod numbers;
mod paths;
mod ranges;
mod renewal;
mod row;
mod runs;
mod sensors;
mod track;
mod track_laws;
mod track_motion;
mod trail;
mod tree;
mod tree_laws;
mod walk;

pub use cache::BoxCache;
pub use cover::{enters_before, is_before, joined};
pub use hit::{Hit, Path};
pub use laws::{
    alike_rows_law, hits_are_on_rays_law, numbers_law, one_local_law, one_nearest_law,
    picks_nearest_law,
};
pub use local::{local_point, moved_back, quotient};
pub use look::{Motion, motion_of};
pub use motion::{clamped, move_point};
pub use paths::{inward, leads_to, outward, sensor_depth};
pub use pick_rules::{Bounds, Fraction};
pub use ranges::{RowRange, RowRanges, add_row, first_place, no_rows};
pub use row::BoxRow;
pub use sensors::{is_enabled, is_held, is_sensor, sensors_of};
pub use track::track_point;
pub use track_laws::{
    outwards_again_law, scales_divide_law, sensors_paths_lead_law, sensors_points_are_inward_law,
    tracking_law, turned_scales_return_law,
};
pub use trail::Place;
pub use tree::{Tree, WIDTH, empty_tree, passed, renew_groups};
pub use tree_laws::passed_inside_law;
pub use walk::pick;
