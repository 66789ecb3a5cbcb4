//! Orders of updates: what their replay gives on the undivided graph.
#![tactic(auto)]

mod examples;
mod faults;
mod laws;
mod listed_links;
mod runs;
mod steps;
mod task_queue;
mod woken_tasks;

pub use examples::{
    colours_of_a_triangle, cores_of_a_triangle_with_a_tail, distances_two_ways,
    labels_of_one_component, levels_along_a_line, levels_along_directions,
};
pub use faults::{RunFault, StepFault};
pub use laws::{
    colours_are_least_free, colours_are_proper, components_are_labels, cores_are_core_numbers,
    levels_are_levels, marks_are_tight, orders_go_on, paths_are_distances, tasks_are_vertices,
    updates_are_few,
};
pub use runs::{Played, SeqRun, least_start, start_values};
pub use steps::update_vertex;
