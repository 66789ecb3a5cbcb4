//! An update on the lists that it is lent.
ghost use Rattle.std.specs.Prelude.{◌≡◌};
ghost use Rattle.full_scope.specs.FullLinks.{IsFull, AreWritten, seen_in};

use crate::{FullLink, FullProgram, FullScope};
use update_api::Woken;

/// Updates the vertex with this identifier and number, and returns whom the update wakes. The
/// numbers of the other ends of the links stand first, each at its link's place, and behind them
/// those of the edges.
pub fn update_lent<P: FullProgram>(
    program: &P,
    id: u64,
    links: &[FullLink],
    centre: &mut u64,
    numbers: &mut [u64],
) -> Woken
    requires { IsFull links.now numbers.old }
    ensures number { centre.new
        ≡ (P.meaning program.now).number (seen_in id centre.old links.now numbers.old) }
    ensures numbers { let seen = seen_in id centre.old links.now numbers.old in
        let p = P.meaning program.now in
        AreWritten (p.near seen) (p.mark seen) links.now numbers.old numbers.new }
    ensures woken { result
        ≡ (P.meaning program.now).woken (seen_in id centre.old links.now numbers.old) }
{
    program.update(&mut FullScope::new(id, links, centre, numbers))
}
