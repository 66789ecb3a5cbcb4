//! The program that colours vertices so that neighbours differ.

mod colours;

pub use colours::Colours;
