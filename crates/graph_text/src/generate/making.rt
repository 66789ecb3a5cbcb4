//! Writes the texts of made graphs.
ghost use Rattle.std.specs.Prelude.{◌≡◌, ◌≤◌, ◌<◌, ◌+◌, ◌*◌, ◌^◌, ◌∷◌, ◌++◌, [], decimal, OnOk, IfSome};
ghost use Rattle.graph_text.specs.generate.Making.{IsPlanInRange, offset_count, edge_from, edge_to, edge_weight, edge_line, made_vertices, made_edges};
ghost use Rattle.graph_text.specs.generate.Writes.{Writes, WritesEdges};

use crate::generate::stride::stride_of;
use gl_base::{MakePlan, NoMemory, push_decimal};
use gl_outside::{Failed, PIECE, Sink, write_all, write_when_full};
use std::alloc::Global;
use thiserror::Error;

/// As many bytes as a line has at most: three numbers of 10 digits, two blanks and LF.
const LINE: usize = 33;

/// Why a text was not written to its end.
#[derive(Clone, Copy, Debug, PartialEq, Eq, Error)]
pub enum Writing {
    /// The sink failed.
    #[error("a write failed")]
    WriteFault,
    /// There was not enough memory.
    #[error("out of memory")]
    NoMemory,
}

impl From<Failed> for Writing {
    ghost use Rattle.graph_text.specs.declared.generate.making.Writing.TheVariants.{WriteFault};

    ghost from_gives = { λ _ fault. fault ≡ WriteFault };

    fn from(_: Failed) -> Self {
        Writing::WriteFault
    }
}

impl From<NoMemory> for Writing {
    ghost use Rattle.graph_text.specs.declared.generate.making.Writing.TheVariants.{NoMemory};

    ghost from_gives = { λ _ fault. fault ≡ NoMemory };

    fn from(_: NoMemory) -> Self {
        Writing::NoMemory
    }
}

/// Writes the vertex text of a made graph: the identifiers from 1 to the number of vertices, one a
/// line. Where the sink fails or memory runs out a front of it was written.
pub fn make_vertices<K: Sink>(alloc: Global, sink: &mut K, plan: &MakePlan) -> Result<(), Writing>
    requires { IsPlanInRange plan.now }
    ensures written { Writes result (made_vertices plan.now) (K.held sink.old) (K.held sink.new)
        (K.faults sink.old) (K.faults sink.new) }
    ensures later { K.faults sink.old ≤ K.faults sink.new }
    ensures same { K.same sink.old sink.new }
{
    let mut piece = Vec::with_capacity(alloc, PIECE).map_err(|_| Writing::NoMemory)?;
    for vertex in 0..plan.vertices {
        push_decimal(&mut piece, vertex + 1)?;
        push_byte(&mut piece, b'\n')?;
        write_when_full(sink, &mut piece, LINE)?;
    }
    write_all(sink, &piece)?;
    Ok(())
}

/// Writes the edge text of a made graph: for each edge the identifiers of its ends and, where the
/// plan has weights, its weight. Where the sink fails or memory runs out a front of it was written.
pub fn make_edges<K: Sink>(alloc: Global, sink: &mut K, plan: &MakePlan) -> Result<(), Writing>
    requires { IsPlanInRange plan.now }
    ensures written { WritesEdges result plan.now (K.held sink.old) (K.held sink.new)
        (K.faults sink.old) (K.faults sink.new) }
    ensures later { K.faults sink.old ≤ K.faults sink.new }
    ensures same { K.same sink.old sink.new }
{
    let stride = stride_of(half(plan.vertices));
    write_edges(alloc, sink, plan, stride)
}

/// The same with this stride.
fn write_edges<K: Sink>(
    alloc: Global,
    sink: &mut K,
    plan: &MakePlan,
    stride: u64,
) -> Result<(), Writing>
    requires plan { IsPlanInRange plan.now }
    requires stride { stride ≤ offset_count plan.now.vertices + 1 }
    ensures written { Writes result (made_edges plan.now stride) (K.held sink.old) (K.held sink.new)
        (K.faults sink.old) (K.faults sink.new) }
    ensures later { K.faults sink.old ≤ K.faults sink.new }
    ensures same { K.same sink.old sink.new }
{
    let mut piece = Vec::with_capacity(alloc, PIECE).map_err(|_| Writing::NoMemory)?;
    for edge in 0..plan.edges {
        push_edge(&mut piece, plan, stride, edge)?;
        write_when_full(sink, &mut piece, LINE)?;
    }
    write_all(sink, &piece)?;
    Ok(())
}

/// How many offsets there are.
fn half(vertices: u32) -> u64
    ensures { result ≡ offset_count vertices }
{
    u64::from(vertices.saturating_sub(1) / 2)
}

/// Adds the line of an edge.
fn push_edge(piece: &mut Vec<u8>, plan: &MakePlan, stride: u64, edge: u32) -> Result<(), NoMemory>
    requires plan { IsPlanInRange plan.now }
    requires stride { stride ≤ offset_count plan.now.vertices + 1 }
    requires edge { edge < plan.now.edges }
    ensures { OnOk result (piece.new.items ≡ piece.old.items ++ edge_line plan.now stride edge) }
{
    let (from, to) = ends_of(plan, stride, edge);
    push_decimal(piece, from + 1)?;
    push_byte(piece, b' ')?;
    push_decimal(piece, to + 1)?;
    if let Some(most) = plan.weight {
        push_byte(piece, b' ')?;
        push_decimal(piece, weight_of(plan.number, most, edge))?;
    }
    push_byte(piece, b'\n')
}

/// The two ends of an edge.
fn ends_of(plan: &MakePlan, stride: u64, edge: u32) -> (u32, u32)
    requires plan { IsPlanInRange plan.now }
    requires stride { stride ≤ offset_count plan.now.vertices + 1 }
    requires edge { edge < plan.now.edges }
    ensures from { result.0 ≡ edge_from plan.now edge }
    ensures to { result.1 ≡ edge_to plan.now stride edge }
    ensures small { (result.0 < plan.now.vertices) × (result.1 < plan.now.vertices) }
{
    let from = edge % plan.vertices;
    let turn = u64::from(edge / plan.vertices);
    let neighbour_offset = 1 + (u64::from(plan.number) + turn * stride) % half(plan.vertices);
    let to = (u64::from(from) + neighbour_offset) % u64::from(plan.vertices);
    (from, to as u32)
}

/// The weight of an edge.
fn weight_of(number: u32, most: u32, edge: u32) -> u32
    ensures { result ≡ edge_weight number most edge }
{
    let weight = (u64::from(number) + u64::from(edge) * 2654435761) % (u64::from(most) + 1);
    weight as u32
}

/// Adds a byte.
fn push_byte(piece: &mut Vec<u8>, byte: u8) -> Result<(), NoMemory>
    ensures { OnOk result (piece.new.items ≡ piece.old.items ++ byte ∷ []) }
{
    piece.push(byte)?;
    Ok(())
}
