//! The engine's top call: from the words of the command line to the printed answer.
#![tactic(auto)]

mod ended;
mod failing;
mod file_verbs;
mod laws;
mod notes;
mod pairing;
mod playing;
mod printing;
mod running;
mod status;
mod storing;
mod top;

pub use ended::Ended;
pub use engine_runs::answers::SnapLine;
pub use file_verbs::files_only;
pub use laws::stores_serve_alike_jobs;
pub use status::Status;
pub use top::engine;
