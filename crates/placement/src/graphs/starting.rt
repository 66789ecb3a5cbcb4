//! The numbers with which a program starts.
ghost use Rattle.std.specs.Prelude.{◌≡◌, IfOk};
ghost use Rattle.placement.specs.graphs.Placed.{Setting};
ghost use Rattle.placement.specs.graphs.Beginnings.{BeginsWith, IsBaseFor, IsFirstBase, start_state};

use gl_base::{Base, NoMemory};
use graph_core::Graph;
use seq_run::start_values;
use std::alloc::Global;
use update_api::Program;

/// The base of a first run: each vertex has the number with which the program starts it, each edge
/// 0, and there is no snapshot.
pub fn first_base<P: Program>(alloc: Global, graph: &Graph, program: &P) -> Result<Base, NoMemory>
    ensures base { IfOk result (IsFirstBase graph.now (P.meaning program.now)) }
    ensures numbers { IfOk result (IsBaseFor graph.now) }
    ensures begins { (st : Setting) → st.graph ≡ graph.now →
        st.start ≡ start_state graph.now (P.meaning program.now) → st.base ≡ 0 →
        IfOk result (BeginsWith st) }
{
    let values = start_values(alloc, graph, program)?;
    let edges = vec![in alloc; 0u64; graph.m() as usize]?;
    Ok(Base {
        number: 0,
        order: Vec::new(alloc),
        values,
        edges,
        length: 0,
    })
}
