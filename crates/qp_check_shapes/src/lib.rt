//! What the judge reads of an object's records: one action, or a call that ends in its assertion, at the front of a list, and the shape of the whole.
#![tactic(auto)]

mod groups;
mod groups_end;
mod object_shape;
mod object_turns;
mod shape_action;
mod shape_assertion;
mod shape_front;
mod shape_pools;
mod shape_publication;
mod shape_release;
mod shape_scene;
mod shape_stage;
mod shape_unit;

pub use object_shape::has_shape;
pub use shape_action::{asserts, behind_action, stops_in_publication};
pub use shape_assertion::behind_assertion;
pub use shape_front::is_front;
pub use shape_scene::Scene;
pub use shape_unit::behind_unit;
