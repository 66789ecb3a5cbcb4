//! Clusters of machines that pair the vertices of a line, played event by event to their ends.
//! What is answered, and what is left, was worked out by hand.
ghost use Rattle.full_cluster.specs.FullClusters.{IsClusterFor};
ghost use Rattle.prog_match.specs.Pairs.{update_of_pairs};

use crate::graphs::graph_of;
use crate::matched::print_number;
use crate::paired::are_below;
use full_cluster::{Division, FullCluster, FullEvent, FullMachine, FullTerms};
use gl_base::{EdgeNo, MachineNo, NoMemory, Refused, ScopeId, Vertex};
use graph_core::Graph;
use prog_match::Pairs;
use std::alloc::Global;
use std::io;

/// An event where each machine owns the vertex of its own number, and begins one scope.
#[derive(Clone, Copy)]
enum Step {
    Admit(u16),
    Grant(u16),
    Send(u16, u16),
    Deliver(u16, u16),
    Update(u16),
}

/// What the scope of vertex 3 does first, and one of 1, which comes to the lock of 2 while that of 3
/// has it.
static FIRST: [(&str, Step); 24] = [
    ("3 sets out", Step::Admit(2)),
    ("3 is sent to 2", Step::Send(2, 1)),
    ("3 comes to 2", Step::Deliver(2, 1)),
    ("3 gets 2", Step::Grant(1)),
    ("3 is sent to 3", Step::Send(1, 2)),
    ("3 comes to 3", Step::Deliver(1, 2)),
    ("3 gets 3", Step::Grant(2)),
    ("3 is sent to 4", Step::Send(2, 3)),
    ("3 comes to 4", Step::Deliver(2, 3)),
    ("1 sets out", Step::Admit(0)),
    ("1 gets 1", Step::Grant(0)),
    ("1 is sent to 2", Step::Send(0, 1)),
    ("1 comes to 2", Step::Deliver(0, 1)),
    ("1 gets 2 while 3 waits for 4", Step::Grant(1)),
    ("3 is updated before it has 4", Step::Update(2)),
    ("3 gets 4", Step::Grant(3)),
    ("3 is sent home", Step::Send(3, 2)),
    ("3 comes home", Step::Deliver(3, 2)),
    ("1 gets 2 before 3 is updated", Step::Grant(1)),
    ("3 is updated", Step::Update(2)),
    ("1 gets 2 before that has come there", Step::Grant(1)),
    ("what 3 gives 2 is sent", Step::Send(2, 1)),
    ("what 3 gives 2 comes", Step::Deliver(2, 1)),
    ("1 gets 2", Step::Grant(1)),
];

/// How often all events are tried at most.
const ROUNDS: u32 = 100;

/// Prints what clusters of four machines and of two do with vertices 1 to 4 in a line.
pub fn print_played(rt: &impl Print, alloc: Global) -> io::Result<()> {
    match graph_of(alloc, &[1, 2, 3, 4], &[(1, 2), (2, 3), (3, 4)], false) {
        Ok(line) => print_clusters(rt, alloc, &line),
        Err(fault) => println!(rt; "clusters on a line of four: {fault}"),
    }
}

fn print_clusters(rt: &impl Print, alloc: Global, line: &Graph) -> io::Result<()> {
    let [a, b, c, d] = [MachineNo(0), MachineNo(1), MachineNo(2), MachineNo(3)];
    print_cluster(rt, alloc, line, 4, &[a, b, c, d], &FIRST)?;
    print_cluster(rt, alloc, line, 2, &[a, a, b, b], &[])
}

/// Prints what a cluster of so many machines, which own the vertices so, answers to these steps, and
/// what it leaves in the end.
fn print_cluster(
    rt: &impl Print,
    alloc: Global,
    line: &Graph,
    machines: u16,
    owner: &[MachineNo; 4],
    first: &[(&str, Step)],
) -> io::Result<()> {
    let terms = FullTerms {
        machines,
        pipeline: 1,
    };
    let Some(division) = Division::new(line, owner) else {
        return println!(rt; "cluster of {machines}: not four vertices");
    };
    if !are_below(division.owner, machines) {
        return println!(rt; "cluster of {machines}: too few machines");
    }
    match FullCluster::new(alloc, &division, terms, &Pairs, 10) {
        Ok(mut cluster) => {
            print_first(rt, alloc, &division, terms, &mut cluster, first)?;
            print_rest(rt, alloc, &division, terms, &mut cluster)?;
            print_left(rt, machines, &cluster, owner)
        }
        Err(fault) => println!(rt; "cluster of {machines}: {fault}"),
    }
}

/// Makes these steps one after another, and prints what is answered.
fn print_first(
    rt: &impl Print,
    alloc: Global,
    division: &Division<'_>,
    terms: FullTerms,
    cluster: &mut FullCluster,
    first: &[(&str, Step)],
) -> io::Result<()>
    requires { IsClusterFor division.now terms update_of_pairs cluster.old }
    ensures { IsClusterFor division.now terms update_of_pairs cluster.new }
{
    for (name, step) in first {
        let event = event_of(*step);
        match cluster.apply(alloc, division, terms, &Pairs, event) {
            Ok(()) => println!(rt; "cluster of {}, {name}: yes", terms.machines)?,
            Err(refused) => println!(rt; "cluster of {}, {name}: {refused}", terms.machines)?,
        }
    }
    Ok(())
}

fn event_of(step: Step) -> FullEvent {
    match step {
        Step::Admit(a) => FullEvent::Admit {
            machine: MachineNo(a),
            vertex: Vertex(u32::from(a)),
        },
        Step::Grant(a) => FullEvent::Grant {
            machine: MachineNo(a),
            vertex: Vertex(u32::from(a)),
        },
        Step::Send(a, b) => FullEvent::Send {
            from: MachineNo(a),
            to: MachineNo(b),
        },
        Step::Deliver(a, b) => FullEvent::Deliver {
            from: MachineNo(a),
            to: MachineNo(b),
        },
        Step::Update(a) => FullEvent::Update {
            scope: ScopeId {
                home: MachineNo(a),
                serial: 0,
            },
        },
    }
}

/// Plays the cluster to its end, and prints whether it came there.
fn print_rest(
    rt: &impl Print,
    alloc: Global,
    division: &Division<'_>,
    terms: FullTerms,
    cluster: &mut FullCluster,
) -> io::Result<()>
    requires { IsClusterFor division.now terms update_of_pairs cluster.old }
{
    match play_out(alloc, division, terms, cluster) {
        Ok(is_out) => println!(rt; "cluster of {}: played out {is_out}", terms.machines),
        Err(fault) => println!(rt; "cluster of {}: {fault}", terms.machines),
    }
}

/// Makes all events that may happen, again and again, until none may. Answers whether it came there
/// in so many rounds.
fn play_out(
    alloc: Global,
    division: &Division<'_>,
    terms: FullTerms,
    cluster: &mut FullCluster,
) -> Result<bool, NoMemory>
    requires { IsClusterFor division.now terms update_of_pairs cluster.old }
{
    let events = all_events(alloc, terms.machines)?;
    for _round in 0..ROUNDS {
        if !play(alloc, division, terms, cluster, &events)? {
            return Ok(true);
        }
    }
    Ok(false)
}

/// Makes each of these events that may happen, one after another. Answers whether one could.
fn play(
    alloc: Global,
    division: &Division<'_>,
    terms: FullTerms,
    cluster: &mut FullCluster,
    events: &[FullEvent],
) -> Result<bool, NoMemory>
    requires { IsClusterFor division.now terms update_of_pairs cluster.old }
    ensures { IsClusterFor division.now terms update_of_pairs cluster.new }
{
    let mut has_played = false;
    for event in events {
        match cluster.apply(alloc, division, terms, &Pairs, *event) {
            Ok(()) => has_played = true,
            Err(Refused::NotNow) => {}
            Err(Refused::NoMemory) => return Err(NoMemory),
        }
    }
    Ok(has_played)
}

/// All events of so many machines and four vertices, each once.
fn all_events(alloc: Global, machines: u16) -> Result<Vec<FullEvent>, NoMemory> {
    let mut events = Vec::new(alloc);
    for a in 0..machines {
        add_own(&mut events, MachineNo(a))?;
        add_ways(&mut events, MachineNo(a), machines)?;
    }
    Ok(events)
}

/// Adds what a machine may do with its locks and its scopes.
fn add_own(events: &mut Vec<FullEvent>, machine: MachineNo) -> Result<(), NoMemory> {
    for v in 0..4 {
        let vertex = Vertex(v);
        let scope = ScopeId {
            home: machine,
            serial: u64::from(v),
        };
        events.push(FullEvent::Admit { machine, vertex })?;
        events.push(FullEvent::Grant { machine, vertex })?;
        events.push(FullEvent::Update { scope })?;
    }
    Ok(())
}

/// Adds what may be sent from a machine.
fn add_ways(events: &mut Vec<FullEvent>, from: MachineNo, machines: u16) -> Result<(), NoMemory> {
    for b in 0..machines {
        let to = MachineNo(b);
        events.push(FullEvent::Send { from, to })?;
        events.push(FullEvent::Deliver { from, to })?;
    }
    Ok(())
}

/// Prints the numbers of the vertices, that of each edge where each of its ends is, and how many
/// updates each machine made.
fn print_left(
    rt: &impl Print,
    machines: u16,
    cluster: &FullCluster,
    owner: &[MachineNo; 4],
) -> io::Result<()> {
    print!(rt; "cluster of {machines}:")?;
    for v in 0..4 {
        print_vertex(rt, cluster.machine(owner[v]), Vertex(v as u32))?;
    }
    print!(rt; ", edges")?;
    print_edges(rt, cluster, owner)?;
    print!(rt; ", updates")?;
    for a in 0..machines {
        print_updates(rt, cluster.machine(MachineNo(a)))?;
    }
    println!(rt; "")
}

fn print_edges(rt: &impl Print, cluster: &FullCluster, owner: &[MachineNo; 4]) -> io::Result<()> {
    for e in 0..3 {
        let edge = EdgeNo(e as u32);
        print_edge(rt, cluster.machine(owner[e]), edge)?;
        print_edge(rt, cluster.machine(owner[e + 1]), edge)?;
    }
    Ok(())
}

/// Prints a vertex that the machine owns.
fn print_vertex(rt: &impl Print, machine: Option<&FullMachine>, v: Vertex) -> io::Result<()> {
    let Some(machine) = machine else {
        return print!(rt; " nowhere");
    };
    match machine.number(v) {
        Some(number) => print_number(rt, number)?,
        None => print!(rt; " nothing")?,
    }
    if machine.is_task(v) {
        print!(rt; " (a task)")?;
    }
    Ok(())
}

fn print_edge(rt: &impl Print, machine: Option<&FullMachine>, e: EdgeNo) -> io::Result<()> {
    let Some(machine) = machine else {
        return print!(rt; " nowhere");
    };
    match machine.edge(e) {
        Some(number) => print!(rt; " {number}"),
        None => print!(rt; " nothing"),
    }
}

fn print_updates(rt: &impl Print, machine: Option<&FullMachine>) -> io::Result<()> {
    match machine {
        Some(machine) => print!(rt; " {}", machine.log().len()),
        None => print!(rt; " nowhere"),
    }
}
