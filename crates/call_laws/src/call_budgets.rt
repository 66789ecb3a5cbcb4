//! How many updates and entries a call makes at most: laws of its attempts.

mod laws;

pub use laws::{
    attempts_keep_to_the_bound, orders_grow_by_updates, what_is_outside_is_of_the_order,
};
