//! Scopes of a machine that takes no locks: each is ready as soon as it is admitted.

mod admitting;

pub use admitting::admit_in_step;
