//! Waking: which tasks an update adds.
ghost use Rattle.std.specs.Prelude.{◌≡◌, ℕ, ◌<◌, ◌||◌, length, map, All};
ghost use Rattle.seq_run.specs.Inner.ListedLinks.{link_half};
ghost use Rattle.seq_run.specs.States.{is_woken};
ghost use Rattle.seq_run.specs.Inner.TaskQueues.{flag};
ghost use Rattle.seq_run.specs.Inner.Waking.{is_woken_along};

use crate::task_queue::TaskQueue;
use gl_base::Vertex;
use update_api::{Link, Woken};

/// Makes tasks of those whom an update wakes, where these are the links of its vertex.
pub fn wake(tasks: &mut TaskQueue, woken: Woken, links: &[Link])
    requires { All (λ link. link.near < length tasks.old) links.now }
    ensures count { length tasks.new ≡ length tasks.old }
    ensures tasks { (u : ℕ) →
        flag tasks.new u ≡ (is_woken woken (map link_half links.now) u || flag tasks.old u) }
{
    for link in links {
        if is_woken_along(woken, link.direction.leads_out()) {
            tasks.add(Vertex(link.near));
        }
    }
}

/// Whether the other end of an edge is woken, where the edge leads out of the vertex or not.
fn is_woken_along(woken: Woken, out: bool) -> bool
    ensures { result ≡ is_woken_along woken out }
{
    match woken {
        Woken::Nobody => false,
        Woken::Ahead => out,
        Woken::Around => true,
    }
}
