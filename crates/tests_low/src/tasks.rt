//! Budgets, single steps, and which vertices are tasks.
use crate::graphs::{graph_of, print_fault};
use crate::runs::{LINE, print_order};
use gl_base::Vertex;
use graph_core::Graph;
use graph_programs::prog_labels::{Components, Levels};
use seq_run::{RunFault, SeqRun, StepFault};
use std::alloc::Global;
use std::io;

/// Prints how runs under budgets end, and what single steps answer.
pub fn print_tasks(rt: &impl Print, alloc: Global) -> io::Result<()> {
    match graph_of(alloc, &[1, 2, 3, 4], &[], false) {
        Ok(graph) => print_budgets(rt, alloc, "four vertices", &graph, &[0, 3, 4, 9])?,
        Err(fault) => print_fault(rt, "four vertices", fault)?,
    }
    match graph_of(alloc, &[], &[], false) {
        Ok(graph) => print_budgets(rt, alloc, "no vertices", &graph, &[0])?,
        Err(fault) => print_fault(rt, "no vertices", fault)?,
    }
    match graph_of(alloc, &[1, 2, 3], &LINE, false) {
        Ok(line) => print_line(rt, alloc, &line),
        Err(fault) => print_fault(rt, "line", fault),
    }
}

fn print_budgets(
    rt: &impl Print,
    alloc: Global,
    name: &str,
    graph: &Graph,
    budgets: &[u64],
) -> io::Result<()> {
    for budget in budgets {
        print!(rt; "{name}, budget {budget}: ")?;
        match SeqRun::new(alloc, graph, Components) {
            Ok(mut run) => print_budget(rt, &mut run, *budget)?,
            Err(fault) => println!(rt; "{fault}")?,
        }
    }
    Ok(())
}

/// Prints what a run answers under a budget, how many updates it made, and the task that it leaves.
fn print_budget(rt: &impl Print, run: &mut SeqRun<'_, Components>, budget: u64) -> io::Result<()> {
    match run.run(budget) {
        Ok(()) => print!(rt; "finished")?,
        Err(fault) => print!(rt; "{fault}")?,
    }
    print!(rt; ", updates {}, task", run.order().len())?;
    match run.waiting() {
        Some(vertex) => println!(rt; " {}", vertex.0),
        None => println!(rt; " none"),
    }
}

/// Steps of levels from 1 along the line.
static STEPS: [u32; 7] = [2, 2, 3, 1, 1, 2, 1];

fn print_line(rt: &impl Print, alloc: Global, line: &Graph) -> io::Result<()> {
    match SeqRun::new(alloc, line, Levels { source: 1 }) {
        Ok(mut run) => print_steps(rt, &mut run)?,
        Err(fault) => println!(rt; "steps: {fault}")?,
    }
    match SeqRun::new(alloc, line, Levels { source: 1 }) {
        Ok(mut run) => print_run_on(rt, &mut run),
        Err(fault) => println!(rt; "steps: {fault}"),
    }
}

fn print_steps(rt: &impl Print, run: &mut SeqRun<'_, Levels>) -> io::Result<()> {
    for vertex in &STEPS {
        print_step(rt, *vertex, run.step(Vertex(*vertex)))?;
    }
    println!(rt; "numbers behind the steps: {:?}", run.values())
}

fn print_step(rt: &impl Print, vertex: u32, answer: Result<(), StepFault>) -> io::Result<()> {
    match answer {
        Ok(()) => println!(rt; "step of levels at {vertex}: done"),
        Err(fault) => println!(rt; "step of levels at {vertex}: {fault}"),
    }
}

/// A run goes on behind steps out of turn.
fn print_run_on(rt: &impl Print, run: &mut SeqRun<'_, Levels>) -> io::Result<()> {
    print_step(rt, 2, run.step(Vertex(2)))?;
    print_step(rt, 1, run.step(Vertex(1)))?;
    print_answer(rt, run.run(1000))?;
    print!(rt; "order behind both:")?;
    print_order(rt, run.order())
}

fn print_answer(rt: &impl Print, answer: Result<(), RunFault>) -> io::Result<()> {
    match answer {
        Ok(()) => println!(rt; "run behind steps out of turn: finished"),
        Err(fault) => println!(rt; "run behind steps out of turn: {fault}"),
    }
}
