//! What the rows of vertex texts and of edge texts say.
ghost use Rattle.std.specs.Prelude.{◌≡◌, ℕ, Bool, refl};
ghost use Rattle.graph_text.specs.declared.lines.said.Row.{Row};
ghost use Rattle.graph_text.specs.declared.lines.said.Row.TheVariants.{Nothing};
ghost use Rattle.graph_text.specs.declared.lines.said.Said.{Said};
ghost use Rattle.graph_text.specs.declared.lines.said.Said.TheVariants.{Passed};
ghost use Rattle.graph_text.specs.lines.Says.{row_weight, row_ends};

use crate::lines::said::{Row, Said};
use gl_base::{MAX_EDGES, MAX_ID, MAX_VERTICES, TextKind};
use graph_core::EdgeIn;

/// What a line of a text may say.
pub trait LineItem: Copy {
    /// How many there may be.
    const MOST: usize;

    ghost MOST: { ℕ };

    /// What a line says, by its row.
    ghost says: { Bool → Row → Said Self };

    /// What a line says, by its row.
    fn said(row: Row, weighted: bool) -> Said<Self>
        ensures { result ≡ says weighted row };

    /// A line without a field says nothing.
    ghost passes: { (weighted : Bool) → says weighted Nothing ≡ Passed };
}

impl LineItem for u64 {
    ghost use Rattle.gl_base.specs.declared.limits.TheConstants.{MAX_VERTICES};
    ghost use Rattle.graph_text.specs.lines.Says.{vertex_said};

    const MOST: usize = MAX_VERTICES;

    ghost MOST = { MAX_VERTICES };

    ghost says = { λ weighted row. vertex_said row };

    fn said(row: Row, _weighted: bool) -> Said<u64> {
        match row {
            Row::Nothing => Said::Passed,
            Row::One(Some(id)) if id <= MAX_ID => Said::Item(id),
            Row::One(Some(_)) => Said::Wrong(TextKind::TooLarge),
            Row::One(None) => Said::Wrong(TextKind::Number),
            Row::Two(..) | Row::Three(..) => Said::Wrong(TextKind::Fields),
        }
    }

    ghost passes = { λ weighted. refl };
}

impl LineItem for EdgeIn {
    ghost use Rattle.gl_base.specs.declared.limits.TheConstants.{MAX_EDGES};
    ghost use Rattle.graph_text.specs.lines.Says.{edge_said};

    const MOST: usize = MAX_EDGES;

    ghost MOST = { MAX_EDGES };

    ghost says = { edge_said };

    fn said(row: Row, weighted: bool) -> Said<EdgeIn> {
        match row {
            Row::Nothing => Said::Passed,
            Row::One(_) => Said::Wrong(TextKind::Fields),
            Row::Two(from, to) => with_ends(from, to, weight_in(weighted, None)),
            Row::Three(from, to, weight) => with_ends(from, to, weight_in(weighted, Some(weight))),
        }
    }

    ghost passes = { λ weighted. refl };
}

/// The weight that the third field tells, where there is one.
#[inline]
fn weight_in(weighted: bool, third: Option<Option<u64>>) -> Result<u32, TextKind>
    ensures { result ≡ row_weight weighted third }
{
    if !weighted {
        return Ok(1);
    }
    match third {
        None => Err(TextKind::NoWeight),
        Some(None) => Err(TextKind::Number),
        Some(Some(weight)) if weight <= 4294967295 => Ok(weight as u32),
        Some(Some(_)) => Err(TextKind::TooLarge),
    }
}

/// The edge between two ends, with its weight or what is wrong with that.
#[inline]
fn with_ends(from: Option<u64>, to: Option<u64>, weight: Result<u32, TextKind>) -> Said<EdgeIn>
    ensures { result ≡ row_ends from to weight }
{
    let (Some(from), Some(to)) = (from, to) else {
        return Said::Wrong(TextKind::Number);
    };
    if from > MAX_ID || to > MAX_ID {
        return Said::Wrong(TextKind::TooLarge);
    }
    match weight {
        Ok(weight) => Said::Item(EdgeIn { from, to, weight }),
        Err(kind) => {
            let weight = 0;
            Said::Late(EdgeIn { from, to, weight }, kind)
        }
    }
}
