//! The parts of a file: what scenarios begin with, and the scenarios.
use std::alloc::{AllocError, Global};

/// Splits a file into its parts, each of whole lines. A part begins with the line `given`, or with
/// a line `scenario NAME`; the lines before the first of these are a part of their own.
pub fn parts_of<'a>(alloc: Global, file: &'a str) -> Result<Vec<Vec<&'a str>>, AllocError> {
    let mut parts = Vec::new(alloc);
    parts.push(Vec::new(alloc))?;
    for line in file.lines() {
        if begins_part(line) {
            parts.push(Vec::new(alloc))?;
        }
        if let Some(part) = parts.last_mut() {
            part.push(line)?;
        }
    }
    Ok(parts)
}

/// Returns whether a part begins with this line.
fn begins_part(line: &str) -> bool {
    line == "given" || line.starts_with("scenario ")
}

/// Returns whether these lines are what the scenarios behind them begin with.
pub fn is_given(part: &[&str]) -> bool {
    match part.first() {
        Some(line) => *line == "given",
        None => false,
    }
}

/// Returns whether a line says nothing: it is empty, or a remark behind `#`.
pub fn is_remark(line: &str) -> bool {
    line.is_empty() || line.starts_with('#')
}
