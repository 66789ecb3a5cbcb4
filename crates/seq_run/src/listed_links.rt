//! The links of a vertex, which its scope lends.
ghost use Rattle.std.specs.Prelude.{◌≡◌, ◌||◌, true, map, All, OnOk};
ghost use Rattle.graph_core.specs.HalfRows.{data_half};
ghost use Rattle.seq_run.specs.Inner.ListedLinks.{link_half};

use gl_base::NoMemory;
use graph_core::Half;
use update_api::{Direction, Link};

/// The links in the order of the half-edges.
pub fn list_links(row: &mut Vec<Link>, halves: &[Half]) -> Result<(), NoMemory>
    requires { All (λ half. (half.out || half.into) ≡ true) halves.now }
    ensures { OnOk result (map link_half row.new.items ≡ map data_half halves.now) }
{
    row.clear();
    for half in halves {
        row.push(link_of(half))?;
    }
    Ok(())
}

/// The link of a half-edge, which leads one way at least.
fn link_of(half: &Half) -> Link
    requires { (half.now.out || half.now.into) ≡ true }
    ensures { link_half result ≡ data_half half.now }
{
    let direction = if !half.out {
        Direction::Into
    } else if !half.into {
        Direction::Out
    } else {
        Direction::Both
    };
    Link {
        near: half.other.0,
        edge: half.edge.0,
        weight: half.weight,
        direction,
    }
}
