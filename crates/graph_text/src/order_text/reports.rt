//! The report: the size of the graph, what its numbers come to, and the digest of the answer.
ghost use Rattle.std.specs.Prelude.{◌≡◌, ◌++◌, ◌∷◌, [], IfOk, OnOk};
ghost use Rattle.graph_text.specs.order_text.Reports.{report_line, report_text, hex_text};

use crate::sync_folds::Fold;
use gl_base::{NoMemory, push_decimal};
use graph_core::Graph;
use itoa::Integer;
use sha2::{Digest, Sha256};
use std::alloc::Global;

/// Six lines: how many vertices and edges the graph has, how many vertices were reached, the sum
/// and the maximum of their numbers, and the SHA-256 of the answer in lower-case hexadecimal
/// digits.
pub fn report(alloc: Global, graph: &Graph, fold: &Fold, answer: &[u8]) -> Result<Vec<u8>, NoMemory>
    ensures { IfOk result (λ text. text.items ≡ report_text graph.now fold.now answer.now) }
{
    let digest = Sha256::digest(answer);
    let mut text = Vec::new(alloc);
    push_number(&mut text, b"vertices", graph.n())?;
    push_number(&mut text, b"edges", graph.m())?;
    push_number(&mut text, b"reached", fold.reached)?;
    push_number(&mut text, b"sum", fold.sum)?;
    push_number(&mut text, b"max", fold.max)?;
    push_digest(alloc, &mut text, b"digest", &digest)?;
    Ok(text)
}

/// Adds a line with a number.
fn push_number<I: Integer>(text: &mut Vec<u8>, name: &[u8], number: I) -> Result<(), NoMemory>
    ensures { OnOk result
        (text.new.items ≡ text.old.items ++ report_line name.now (I.text number)) }
{
    text.extend_from_slice(name)?;
    text.push(b' ')?;
    push_decimal(text, number)?;
    text.push(b'\n')?;
    Ok(())
}

/// Adds a line with bytes in hexadecimal digits.
fn push_digest(
    alloc: Global,
    text: &mut Vec<u8>,
    name: &[u8],
    digest: &[u8],
) -> Result<(), NoMemory>
    ensures { OnOk result
        (text.new.items ≡ text.old.items ++ report_line name.now (hex_text digest.now)) }
{
    text.extend_from_slice(name)?;
    text.push(b' ')?;
    push_hex(alloc, text, digest)?;
    text.push(b'\n')?;
    Ok(())
}

/// Adds two hexadecimal digits for each byte, the one of its upper half first.
fn push_hex(alloc: Global, text: &mut Vec<u8>, bytes: &[u8]) -> Result<(), NoMemory>
    ensures { OnOk result (text.new.items ≡ text.old.items ++ hex_text bytes.now) }
{
    let digits = hex::encode(alloc, bytes)?;
    text.extend_from_slice(digits.as_bytes())?;
    Ok(())
}
