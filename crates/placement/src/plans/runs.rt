//! Runs of a program.
/// How a program is to be run on a graph: on how many machines its atoms are placed, how many
/// scopes of one machine may be in flight, and how many updates may be made.
#[derive(Clone, Copy)]
pub struct RunPlan {
    pub machines: u16,
    pub pipeline: u16,
    pub budget: u64,
}
