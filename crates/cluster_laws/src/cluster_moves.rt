//! Nothing is ever stuck: while a ticket is left, a machine may do something, or all is over.

mod laws;

pub use laws::{
    actions_keep_counts, actions_keep_due, never_stuck, over_is_finished, something_may_be_done,
    starts_are_counted,
};
