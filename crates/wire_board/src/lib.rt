//! A board: the machines of a cluster on threads of their own, with links and tickets that they
//! share.
#![tactic(auto)]

mod attempts;
mod boards;
mod calls;
mod directing;
mod drawing;
mod failing;
mod hearing;
mod leading;
mod moving;
mod passing;
mod playing;
mod receipts;
mod reports;
mod seats;
mod standings;
mod stepping;
mod talking;
mod telling;
mod turns;
mod working;

pub use attempts::{Attempt, TOO_MANY};
pub use boards::{About, Board, BoardRule};
pub use coordinator::machine_api::EagerMachine;
pub use directing::Directed;
pub use drawing::Drawn;
pub use passing::{Heard, Told};
pub use playing::play_on_board;
pub use receipts::{Opened, Receipt};
pub use seats::{CoordSeat, NodeSeat};
pub use standings::{Leading, Member, Owed, Seated, Standing};
pub use stepping::{NodeStep, SeatStep, step_on_board};
pub use turns::Worked;
