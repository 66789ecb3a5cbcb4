//! What a line means.
ghost use Rattle.std.specs.Prelude.{◌≡◌, ◌≤◌, IfOk, Err, Ok, option_map};
ghost use Rattle.gl_base.specs.declared.memory.OrNoMemory.{OrNoMemory};
ghost use Rattle.gl_base.specs.declared.usage_faults.UsageFault.{UsageFault};
ghost use Rattle.job_io.specs.job_words.Meanings.{plan_in_range, is_number, meaning_of, most_edges, option_number, plan_of, option_weight};
ghost use Rattle.job_io.specs.job_words.Inner.Views.{line_view};

use crate::job_words::lines::Line;
use crate::job_words::words::{Words, WordsReading};
use gl_base::{MAX_EDGES, MAX_VERTICES, MakePlan, Name, Opt, UsageFault};
use std::alloc::{AllocError, Global};

/// The greatest number that an option takes which has no limit of its own.
const MAX_NUMBER: u64 = 4294967295;

/// Whether a text is one digit or more.
fn is_number(text: &str) -> bool
    ensures { result ≡ is_number text.now }
{
    !text.is_empty() && text.as_bytes().iter().all(|byte| byte.is_ascii_digit())
}

/// The number that a text of digits writes, and the greatest `u64` for a greater one.
fn read_number(option: Opt, text: &str) -> Result<u64, UsageFault>
    ensures { result ≡ option_number option text.now }
{
    if is_number(text) {
        Ok(text.parse::<u64>().unwrap_or(u64::MAX))
    } else {
        Err(UsageFault::Number(option))
    }
}

/// The number of the weight's text, where there is one.
fn read_weight(text: Option<&str>) -> Result<Option<u64>, UsageFault>
    ensures { result ≡ option_weight (option_map (λ s. s.now) text.entry) }
{
    match text {
        None => Ok(None),
        Some(text) => Ok(Some(read_number(Opt::Weight, text)?)),
    }
}

/// How many edges a generated graph of so many vertices may have.
fn edge_limit(vertices: u64) -> u64
    requires { vertices ≤ MAX_VERTICES }
    ensures { result ≡ most_edges vertices }
{
    let ahead = vertices.saturating_sub(1) / 2;
    (vertices * ahead).min(MAX_EDGES as u64)
}

/// The plan of four numbers, where each is in its range.
fn plan_in_range(
    number: u64,
    vertices: u64,
    edges: u64,
    weight: Option<u64>,
) -> Result<MakePlan, UsageFault>
    ensures { result ≡ plan_in_range number vertices edges weight }
{
    if number > MAX_NUMBER {
        return Err(UsageFault::Range(Opt::Number));
    }
    if vertices > MAX_VERTICES as u64 {
        return Err(UsageFault::Range(Opt::Vertices));
    }
    if edges > edge_limit(vertices) {
        return Err(UsageFault::Range(Opt::Edges));
    }
    let weight = match weight {
        None => None,
        Some(most) if most > MAX_NUMBER => return Err(UsageFault::Range(Opt::Weight)),
        Some(most) => Some(most as u32),
    };
    Ok(MakePlan {
        number: number as u32,
        vertices: vertices as u32,
        edges: edges as u32,
        weight,
    })
}

/// The plan that a line of `make` asks for.
fn read_plan(line: &Line) -> Result<MakePlan, UsageFault>
    ensures { result ≡ plan_of (line_view line.now).number (line_view line.now).vertices
        (line_view line.now).edges (line_view line.now).weight }
{
    let (Some(number), Some(vertices), Some(edges)) = (line.number, line.vertices, line.edges)
    else {
        return Err(UsageFault::Missing);
    };
    let number = read_number(Opt::Number, number)?;
    let vertices = read_number(Opt::Vertices, vertices)?;
    let edges = read_number(Opt::Edges, edges)?;
    let weight = read_weight(line.weight)?;
    plan_in_range(number, vertices, edges, weight)
}

/// What a line means.
pub fn read_meaning(alloc: Global, line: &Line) -> Result<Words, WordsReading>
    ensures asked { IfOk result (λ w. meaning_of (line_view line.now) ≡ Ok w) }
    ensures fault { (f : UsageFault) → result ≡ Err (OrNoMemory.Fault f)
        → meaning_of (line_view line.now) ≡ Err f }
{
    match line.verb {
        "run" if line.has_option() => Err(WordsReading::Fault(UsageFault::NotHere)),
        "run" => Ok(Words::Run {
            file: own_name(alloc, line.file)?,
            report: line.report,
        }),
        "resume" if line.has_option() => Err(WordsReading::Fault(UsageFault::NotHere)),
        "resume" => Ok(Words::Resume {
            file: own_name(alloc, line.file)?,
            report: line.report,
        }),
        "make" if line.report => Err(WordsReading::Fault(UsageFault::NotHere)),
        "make" => {
            let plan = read_plan(line).map_err(WordsReading::Fault)?;
            let prefix = own_name(alloc, line.file)?;
            Ok(Words::Make { prefix, plan })
        }
        "cut" if line.report || line.has_option() => {
            Err(WordsReading::Fault(UsageFault::NotHere))
        }
        "cut" => Ok(Words::Cut {
            file: own_name(alloc, line.file)?,
        }),
        "init" if line.report || line.has_option() => {
            Err(WordsReading::Fault(UsageFault::NotHere))
        }
        "init" => Ok(Words::Init {
            file: own_name(alloc, line.file)?,
        }),
        _ => Err(WordsReading::Fault(UsageFault::Verb)),
    }
}

/// A name of its own that a text spells.
fn own_name(alloc: Global, text: &str) -> Result<Name, AllocError>
    ensures { IfOk result (λ name. name ≡ text.now) }
{
    Ok(Name::new(String::from_str(alloc, text)?))
}
