//! Folds of the numbers of vertices: how many were reached, what their numbers add up to, and the
//! greatest of them.

mod folds;
mod laws;

pub use folds::Fold;
pub use laws::{
    folds_are_bounded, folds_join, max_is_greatest, merging_needs_no_order, order_does_not_count,
};
