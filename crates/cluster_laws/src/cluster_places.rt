//! Scopes of updates exclude one another: each is in one place and holds just the locks of that
//! place, whatever happens; and where vertices run by colours, those of one step have no neighbours
//! among them.

mod examples;
mod laws;

pub use examples::locks_wait_for_news;
pub use laws::{
    actions_keep_places, actions_keep_steps, fronts_may_be_received,
    locks_exclude_whatever_happens, places_exclude, starts_are_placed, steps_exclude,
};
