//! Lines that are moved to where they belong.
ghost use Rattle.std.specs.Prelude.{◌≡◌, ◌<◌, length};
ghost use Rattle.std.specs.List.Sorted.{IsPermutation};

use gl_base::VertexLine;

/// Moves each line to its target, where no two have the same one and all are places of the list.
pub fn move_all(lines: &mut [VertexLine], targets: &mut [u32])
    ensures { IsPermutation lines.old lines.new }
{
    for place in 0..lines.len() {
        move_from(lines, targets, place);
    }
}

/// Exchanges the line at a place with the one at its target, until it stands at its own.
fn move_from(lines: &mut [VertexLine], targets: &mut [u32], place: usize)
    requires { place < length lines.old }
    ensures permutation { IsPermutation lines.old lines.new }
    ensures many { length lines.new ≡ length lines.old }
{
    for _ in 0..lines.len() {
        if !exchange(lines, targets, place) {
            return;
        }
    }
}

/// Exchanges the line at a place with the one at its target, and says whether that was another
/// place.
#[inline]
fn exchange(lines: &mut [VertexLine], targets: &mut [u32], place: usize) -> bool
    requires { place < length lines.old }
    ensures permutation { IsPermutation lines.old lines.new }
    ensures many { length lines.new ≡ length lines.old }
{
    if place >= targets.len() {
        return false;
    }
    let target = targets[place] as usize;
    if target == place || target >= lines.len() || target >= targets.len() {
        return false;
    }
    lines.swap(place, target);
    targets.swap(place, target);
    true
}
