//! Vertices that come to stand in line.
ghost use Rattle.std.specs.Prelude.{◌≡◌, ◌⊎◌, ℕ, ◌<◌, ◌==◌, ◌&&◌, ◌||◌, true, Some, length};
ghost use Rattle.machine_core.specs.color_parts.Enlisting.{HasEnlisted, ends_of, is_free_such, is_such, place_at, sides_at};
ghost use Rattle.machine_core.specs.color_parts.Parts.{is_in_line};

use gl_base::Vertex;
use local_graph::Side;
use partition::machine_numbers::Numbers;
use task_sets::color_tasks::ColorLines;
use task_sets::task_sched::TaskSet;

/// A kind of vertices: which of them stand in line where they are not admitted.
#[derive(Clone, Copy)]
pub enum Which {
    /// The tasks.
    Tasks,
    /// Those that are pending.
    Pending,
    /// Each.
    All,
}

/// Of these vertices those of this kind here that are not admitted stand in line.
pub fn enlist_all(lines: &mut ColorLines, numbers: &Numbers, vertices: &[Vertex], which: Which)
    requires { length lines.old.colours ≡ length numbers.now.tasks.task }
    ensures colours { lines.new.colours ≡ lines.old.colours }
    ensures enlisted { HasEnlisted which numbers.now lines.old lines.new
        vertices.now (length vertices.now) }
{
    for place in 0..vertices.len() {
        enlist(lines, numbers, vertices[place], which);
    }
}

/// Of the vertices at the other ends of the sides of v those of this kind here that are not
/// admitted stand in line.
pub fn enlist_near(lines: &mut ColorLines, numbers: &Numbers, v: Vertex, which: Which)
    requires { length lines.old.colours ≡ length numbers.now.tasks.task }
    ensures colours { lines.new.colours ≡ lines.old.colours }
    ensures enlisted { HasEnlisted which numbers.now lines.old lines.new
        (ends_of (sides_at numbers.now.local v.0)) (length (sides_at numbers.now.local v.0)) }
{
    enlist_along(lines, numbers, numbers.local.sides(v), which);
}

/// The same of those at the other ends of these sides.
fn enlist_along(lines: &mut ColorLines, numbers: &Numbers, sides: &[Side], which: Which)
    requires { length lines.old.colours ≡ length numbers.now.tasks.task }
    ensures colours { lines.new.colours ≡ lines.old.colours }
    ensures enlisted { HasEnlisted which numbers.now lines.old lines.new
        (ends_of sides.now) (length sides.now) }
{
    for place in 0..sides.len() {
        enlist(lines, numbers, sides[place].other, which);
    }
}

/// The vertex stands in line where it is of this kind here and not admitted.
pub fn enlist(lines: &mut ColorLines, numbers: &Numbers, v: Vertex, which: Which)
    requires { length lines.old.colours ≡ length numbers.now.tasks.task }
    ensures colours { lines.new.colours ≡ lines.old.colours }
    ensures kept { (u : ℕ) → is_in_line lines.old u ≡ true → is_in_line lines.new u ≡ true }
    ensures free { (u : ℕ) → is_in_line lines.new u ≡ true → (is_in_line lines.old u ≡ true) ⊎
        ((place_at numbers.now.local v.0 ≡ Some u) ×
        (is_free_such which numbers.now.tasks u ≡ true)) }
    ensures there { (k : ℕ) → place_at numbers.now.local v.0 ≡ Some k →
        k < length numbers.now.tasks.task → is_free_such which numbers.now.tasks k ≡ true →
        is_in_line lines.new k ≡ true }
{
    let count = numbers.tasks.count() as usize;
    match numbers.local.place(v) {
        Some(place) if place < count => {
            enlist_at(lines, &numbers.tasks, Vertex(place as u32), which);
        }
        _ => {}
    }
}

/// The vertex at this place stands in line where it is of this kind and not admitted.
pub fn enlist_at(lines: &mut ColorLines, tasks: &TaskSet, place: Vertex, which: Which)
    requires { place.0 < length lines.old.colours }
    ensures colours { lines.new.colours ≡ lines.old.colours }
    ensures in_line { (u : ℕ) →
        is_in_line lines.new u ≡
        ((u == place.0 && is_free_such which tasks.now u) || is_in_line lines.old u) }
{
    if is_free_such(tasks, place, which) {
        lines.add(place);
    }
}

/// Whether the vertex at this place is of this kind and not admitted.
fn is_free_such(tasks: &TaskSet, place: Vertex, which: Which) -> bool
    ensures { result ≡ is_free_such which tasks.now place.0 }
{
    is_such(tasks, place, which) && !tasks.is_admitted(place)
}

/// Whether the vertex at this place is of this kind.
fn is_such(tasks: &TaskSet, place: Vertex, which: Which) -> bool
    ensures { result ≡ is_such which tasks.now place.0 }
{
    match which {
        Which::Tasks => tasks.is_task(place),
        Which::Pending => tasks.is_pending(place),
        Which::All => true,
    }
}
