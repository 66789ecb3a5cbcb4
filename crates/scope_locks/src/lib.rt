//! What a machine keeps of scopes: the locks of its vertices, the pipe of its scopes, the numbers
//! of its ghosts.
#![tactic(auto)]

pub mod ghost_cache;
pub mod scope_pipe;
pub mod vertex_locks;
