//! Whether a cluster has come to the numbers of a run on one thread.
use crate::beginnings::Beginning;
use crate::replays::Numbers;
use crate::scenes::Kept;
use crate::trouble::Trouble;
use gl_base::{Algorithm, EdgeNo};
use graph_core::Graph;
use seq_run::{RunFault, SeqRun};
use std::alloc::Global;
use update_api::Program;

/// Returns `true` if the newest snapshot has the numbers of a run on one thread; of colours, which
/// depend on the order, if neighbours differ.
pub fn is_answer<P: Program>(
    alloc: Global,
    beginning: &Beginning<'_, P>,
    kept: &Kept,
) -> Result<bool, Trouble> {
    if beginning.algorithm == Algorithm::Colours {
        return is_colouring(beginning.graph, &kept.newest.values);
    }
    let mut run = SeqRun::new(alloc, beginning.graph, beginning.program)?;
    let outcome = leads_to(&mut run, &kept.newest);
    drop(run);
    outcome
}

/// Makes the run, and returns `true` if it ends with these numbers.
fn leads_to<P: Program>(run: &mut SeqRun<'_, P>, newest: &Numbers) -> Result<bool, Trouble> {
    match run.run(u64::MAX) {
        Ok(()) => {}
        Err(RunFault::NoMemory) => return Err(Trouble::Because("memory is missing")),
        Err(RunFault::Spent) => return Err(Trouble::Because("one thread has no end")),
    }
    if newest.values.as_slice() == run.values() && newest.edges.as_slice() == run.edges() {
        Ok(true)
    } else {
        Err(Trouble::Because("one thread comes to other numbers"))
    }
}

/// Returns `true` if each vertex has a colour, from 1 on, that none of its neighbours has.
fn is_colouring(graph: &Graph, colours: &[u64]) -> Result<bool, Trouble> {
    if colours.iter().any(|colour| *colour == 0) {
        return Err(Trouble::Because("a vertex has no colour"));
    }
    for e in 0..graph.m() {
        let (one, other) = graph.ends(EdgeNo(e));
        if colours.get(one.0 as usize) == colours.get(other.0 as usize) {
            return Err(Trouble::Because("two neighbours have one colour"));
        }
    }
    Ok(true)
}
