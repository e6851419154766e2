//! What an evaluation keeps beside the frame, the groups of windows, and where their values stand.
#![tactic(auto)]

mod cached_value;
mod flags;
mod key;
mod ordering;
mod places;
mod placing;
mod same;
mod state;
mod window_cache;

pub use cached_value::CachedValue;
pub use flags::StateFlags;
pub use key::CacheKey;
pub use ordering::ordered_groups;
pub use places::inverse_map;
pub use placing::{place_explode, place_join, place_rows};
pub use state::ExecutionState;
pub use window_cache::{WindowCache, keep_groups, keep_map};
