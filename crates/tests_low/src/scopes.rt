//! Numbers before and after an update of a vertex with three neighbours.
use gl_base::INF;
use gl_outside::Gate;
use graph_programs::gated::Gated;
use graph_programs::prog_colours::Colours;
use graph_programs::prog_cores::Cores;
use graph_programs::prog_labels::{Components, Levels};
use graph_programs::prog_paths::Paths;
use seq_run::update_vertex;
use std::io;
use std::sync::atomic::{AtomicU64, Ordering};
use update_api::{Direction, Link, Program, Scope, Woken};

/// Prints what each program starts with, and what its updates leave.
pub fn print_scopes(rt: &impl Print) -> io::Result<()> {
    print_updates(rt, "levels from 7", &Levels { source: 7 }, &LEVELS)?;
    print_updates(rt, "components", &Components, &COMPONENTS)?;
    print_updates(rt, "paths from 7", &Paths { source: 7 }, &PATHS)?;
    print_updates(rt, "colours", &Colours, &COLOURS)?;
    print_updates(rt, "cores", &Cores, &CORES)?;
    print_gated(rt)?;
    print_flat(rt)?;
    print_edges(rt)
}

/// The numbers of the first neighbour, of the vertex, and of the other two.
type Numbers = (u64, u64, u64, u64);

static LEVELS: [Numbers; 4] = [
    (4, INF, 1, 6),
    (4, INF, 1, 3),
    (4, 5, 1, INF),
    (INF, INF, 1, INF),
];

static COMPONENTS: [Numbers; 3] = [(4, 9, 1, 6), (4, 9, 12, 6), (4, 3, 12, 6)];

static PATHS: [Numbers; 4] = [
    (4, INF, INF, INF),
    (4, INF, 7, 6),
    (1, 6, 7, 6),
    (INF, INF, INF, INF),
];

static COLOURS: [Numbers; 4] = [(0, 0, 0, 0), (1, 0, 3, 0), (2, 0, 1, 3), (2, 2, 2, 2)];

static CORES: [Numbers; 5] = [
    (INF, INF, INF, INF),
    (2, INF, 1, INF),
    (2, 1, 1, INF),
    (0, INF, 0, 0),
    (3, 2, 2, 9),
];

/// An edge comes from the first neighbour, one leads to the second, and one without direction to
/// the third.
static LINKS: [Link; 3] = [
    Link {
        near: 0,
        edge: 2,
        weight: 5,
        direction: Direction::Into,
    },
    Link {
        near: 2,
        edge: 0,
        weight: 1,
        direction: Direction::Out,
    },
    Link {
        near: 3,
        edge: 1,
        weight: 0,
        direction: Direction::Both,
    },
];

fn print_updates<P: Program>(
    rt: &impl Print,
    name: &str,
    program: &P,
    rows: &[Numbers],
) -> io::Result<()> {
    println!(rt;
        "{name} start: {} at 7, {} at 9",
        program.start(7),
        program.start(9)
    )?;
    for numbers in rows {
        print_update(rt, name, program, *numbers)?;
    }
    Ok(())
}

/// Prints the number of the vertex and those of its edges after an update, and whom it wakes. The
/// vertex has identifier 7.
fn print_update<P: Program>(
    rt: &impl Print,
    name: &str,
    program: &P,
    (first, own, second, third): Numbers,
) -> io::Result<()> {
    let (low, high) = ([first], [second, third]);
    let mut centre = own;
    let mut edges = [8, 8, 8];
    let mut scope = Scope::new(7, &LINKS, &low, &mut centre, &high, &mut edges);
    let woken = name_of(program.update(&mut scope));
    println!(rt;
        "{name}, {own} beside {first}, {second}, {third}: {centre}, edges {edges:?}, wakes {woken}"
    )
}

fn name_of(woken: Woken) -> &'static str {
    match woken {
        Woken::Nobody => "nobody",
        Woken::Ahead => "those ahead",
        Woken::Around => "all around",
    }
}

/// How often a gate was passed, and by which identifier last.
#[derive(Drop)]
struct Passes {
    times: AtomicU64,
    last: AtomicU64,
}

impl Gate for Passes {
    fn pass(&self, id: u64) {
        self.times.fetch_add(1, Ordering::SeqCst);
        self.last.store(id, Ordering::SeqCst);
    }
}

/// Prints what updates leave that pass a gate, and what the gate saw of them.
fn print_gated(rt: &impl Print) -> io::Result<()> {
    let gate = Passes {
        times: AtomicU64::new(0),
        last: AtomicU64::new(0),
    };
    let program = Gated {
        program: Components,
        gate: &gate,
    };
    print_updates(rt, "gated components", &program, &COMPONENTS)?;
    println!(rt;
        "gate: passed {} times, last by {}",
        gate.times.load(Ordering::SeqCst),
        gate.last.load(Ordering::SeqCst)
    )
}

static FLAT: [Link; 2] = [
    Link {
        near: 2,
        edge: 1,
        weight: 3,
        direction: Direction::Both,
    },
    Link {
        near: 0,
        edge: 0,
        weight: 9,
        direction: Direction::Both,
    },
];

/// Prints what an update of the second of three vertices leaves in flat lists.
fn print_flat(rt: &impl Print) -> io::Result<()> {
    let mut values = [0, INF, 4];
    let mut edges = [0, 0, 5];
    let woken = update_vertex(&Paths { source: 7 }, 1, 8, &FLAT, &mut values, &mut edges);
    println!(rt;
        "paths from 7 in flat lists: numbers {values:?}, edges {edges:?}, wakes {}",
        name_of(woken)
    )
}

static WRITTEN: [Link; 2] = [
    Link {
        near: 0,
        edge: 1,
        weight: 1,
        direction: Direction::Out,
    },
    Link {
        near: 2,
        edge: 0,
        weight: 1,
        direction: Direction::Into,
    },
];

/// Prints an edge before and after it is written.
fn print_edges(rt: &impl Print) -> io::Result<()> {
    let (low, high) = ([4], [6]);
    let mut centre = 5;
    let mut edges = [8, 9, 10];
    let mut scope = Scope::new(7, &WRITTEN, &low, &mut centre, &high, &mut edges);
    let before = *scope.edge_mut(0);
    *scope.edge_mut(0) = 1;
    let (first, second, own) = (scope.edge(0), scope.edge(1), scope.centre());
    println!(rt;
        "edge at link 0: {before}; written 1: link 0 {first}, link 1 {second}, vertex {own}; then {centre}, {edges:?}"
    )
}
