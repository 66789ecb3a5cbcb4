//! What a scenario's cluster is made of, as it is written.
use gl_base::{Algorithm, EngineKind, FailureAt, MachineNo};
use graph_core::EdgeIn;
use scenario_lines::{Line, Page, is_remark, number_of, word_of, words_behind};
use std::alloc::Global;

/// What a cluster is made of.
#[derive(Drop)]
pub struct Plan {
    pub vertices: Vec<u64>,
    pub edges: Vec<EdgeIn>,
    pub is_directed: bool,
    pub algorithm: Algorithm,
    /// The identifier of the source.
    pub source: u64,
    /// The machine of each vertex, by ascending identifier.
    pub machines: Vec<u64>,
    pub engine: EngineKind,
    pub pipeline: u64,
    pub window: u64,
    pub tickets: u64,
    /// The numbers of the vertices with which the run begins; empty if they are the program's.
    pub values: Vec<u64>,
    /// The numbers of the edges with which the run begins; empty if they are 0.
    pub marks: Vec<u64>,
    /// The failures that the job orders.
    pub failures: Vec<FailureAt>,
    /// Whether the scenario is a call that is driven to its end.
    pub is_call: bool,
    /// Whether a call begins on a board.
    pub is_on_board: bool,
    /// How many steps of seats a call begins with on a board, in each order; 0 if it does not.
    pub steps: u64,
    /// Whether the machines of the call go on threads to the first pause.
    pub has_threads: bool,
}

/// What a line says of a cluster.
#[derive(Clone, Copy)]
enum Part {
    Heading,
    Vertices,
    Edges,
    Directed,
    Components,
    Levels,
    Paths,
    Colours,
    Cores,
    On,
    Locking,
    Chromatic,
    Pipeline,
    Window,
    Tickets,
    Values,
    Marks,
    Failures,
    Driven,
    Board,
    Steps,
    Threads,
}

/// Each of them with its word.
static PARTS: [(&str, Part); 23] = [
    ("given", Part::Heading),
    ("scenario", Part::Heading),
    ("vertices", Part::Vertices),
    ("edges", Part::Edges),
    ("directed", Part::Directed),
    ("components", Part::Components),
    ("levels", Part::Levels),
    ("paths", Part::Paths),
    ("colours", Part::Colours),
    ("cores", Part::Cores),
    ("on", Part::On),
    ("locking", Part::Locking),
    ("chromatic", Part::Chromatic),
    ("pipeline", Part::Pipeline),
    ("window", Part::Window),
    ("tickets", Part::Tickets),
    ("values", Part::Values),
    ("marks", Part::Marks),
    ("failures", Part::Failures),
    ("driven", Part::Driven),
    ("board", Part::Board),
    ("steps", Part::Steps),
    ("threads", Part::Threads),
];

/// Takes what the first lines say of the cluster, writes them as they were taken, and returns how
/// many they are.
pub fn take_lines(alloc: Global, plan: &mut Plan, lines: &[&str], page: &mut Page) -> usize {
    for (place, text) in lines.iter().enumerate() {
        if is_remark(text) {
            page.add_line(text);
        } else if let Some(part) = part_of(text) {
            plan.take(alloc, part, text, page);
        } else {
            return place;
        }
    }
    lines.len()
}

/// Returns what the line says of a cluster, if it does.
fn part_of(text: &str) -> Option<Part> {
    for (word, part) in PARTS.as_slice() {
        if *word == word_of(text) {
            return Some(*part);
        }
    }
    None
}

impl Plan {
    /// Makes a plan of no vertices, components, locks, one scope in flight, a window of four
    /// updates, and many tickets.
    pub fn new(alloc: Global) -> Plan {
        Plan {
            vertices: Vec::new(alloc),
            edges: Vec::new(alloc),
            is_directed: false,
            algorithm: Algorithm::Components,
            source: 0,
            machines: Vec::new(alloc),
            engine: EngineKind::Locking,
            pipeline: 1,
            window: 4,
            tickets: 1000000,
            values: Vec::new(alloc),
            marks: Vec::new(alloc),
            failures: Vec::new(alloc),
            is_call: false,
            is_on_board: false,
            steps: 0,
            has_threads: false,
        }
    }

    /// Takes a line, and writes it as it was taken.
    fn take(&mut self, alloc: Global, part: Part, text: &str, page: &mut Page) {
        match part {
            Part::Heading => page.add(text),
            Part::Edges => self.take_edges(text, page),
            Part::Failures => self.take_failures(text, page),
            _ => self.take_numbers(part, Line::of(alloc, text), page),
        }
        page.add_line("");
    }

    /// Takes a line of numbers.
    fn take_numbers(&mut self, part: Part, line: Line<'_>, page: &mut Page) {
        page.add_words(&line);
        let number = line.number(0);
        match part {
            Part::Vertices => self.vertices = line.numbers,
            Part::On => self.machines = line.numbers,
            Part::Values => self.values = line.numbers,
            Part::Marks => self.marks = line.numbers,
            _ => self.take_number(part, number),
        }
    }

    /// Takes a line of one number, or of none.
    fn take_number(&mut self, part: Part, number: u64) {
        match part {
            Part::Levels => self.run(Algorithm::Levels, number),
            Part::Paths => self.run(Algorithm::Paths, number),
            Part::Colours => self.run(Algorithm::Colours, 0),
            Part::Cores => self.run(Algorithm::Cores, 0),
            Part::Directed => self.is_directed = true,
            Part::Locking => self.engine = EngineKind::Locking,
            Part::Chromatic => self.engine = EngineKind::Chromatic,
            Part::Pipeline => self.pipeline = number,
            Part::Window => self.window = number,
            Part::Tickets => self.tickets = number,
            Part::Driven => self.is_call = true,
            Part::Board => self.is_on_board = true,
            Part::Steps => self.steps = number,
            Part::Threads => self.has_threads = true,
            _ => self.run(Algorithm::Components, 0),
        }
    }

    /// Takes the program and its source.
    fn run(&mut self, algorithm: Algorithm, source: u64) {
        self.algorithm = algorithm;
        self.source = source;
    }

    /// Takes edges that are written as `1-2`, or with a weight as `1-2:7`.
    fn take_edges(&mut self, text: &str, page: &mut Page) {
        page.add(word_of(text));
        for word in words_behind(text).split(' ') {
            let (ends, weight) = word.split_once(':').unwrap_or((word, "1"));
            let (from, to) = ends.split_once('-').unwrap_or((ends, ""));
            let (from, to) = (number_of(from), number_of(to));
            page.add_numbers(&[from]);
            page.add("-");
            page.add_number(to);
            let weight = u32::try_from(number_of(weight)).unwrap_or(u32::MAX);
            if word.contains(':') {
                page.add(":");
                page.add_number(weight as u64);
            }
            let _ = self.edges.push(EdgeIn { from, to, weight });
        }
    }

    /// Takes failures that are written as `0:5`: machine 0 fails where it has completed five
    /// updates.
    fn take_failures(&mut self, text: &str, page: &mut Page) {
        page.add(word_of(text));
        for word in words_behind(text).split(' ') {
            let (machine, after) = word.split_once(':').unwrap_or((word, ""));
            let failure = FailureAt {
                machine: machine_of(number_of(machine)),
                after: number_of(after),
            };
            page.add_numbers(&[failure.machine.0 as u64]);
            page.add(":");
            page.add_number(failure.after);
            let _ = self.failures.push(failure);
        }
    }
}

/// Returns the machine of this number; if it is too great, one that no cluster has.
pub fn machine_of(number: u64) -> MachineNo {
    MachineNo(u16::try_from(number).unwrap_or(u16::MAX))
}
