//! The coordinator and machines that answer it.
use coordinator::coord_core::{Coordinator, Due, Engine, Store};
use gl_base::{MachineNo, Refused, Vertex};
use scope_locks::scope_pipe::ScopePipe;
use snapshot_machines::wave_counts::{WaveCounts, is_at_rest};
use std::alloc::Global;
use std::io;
use task_sets::task_sched::TaskSet;
use wire::wire_msgs::Message;

/// How many messages machines 0 and 1 send and receive before a wave.
type Worked = (u64, u64, u64, u64);

static PAIR: [Worked; 4] = [(3, 2, 3, 3), (0, 0, 0, 0), (2, 2, 1, 2), (0, 0, 0, 0)];

/// What a coordinator of two colours puts out in turn: a step of this colour, or a wave where there
/// is none; and how many messages machines 0 and 1 send and receive before.
static STEPS: [(u32, Worked); 9] = [
    (1, (0, 0, 0, 0)),
    (0, (1, 0, 0, 0)),
    (0, (0, 0, 0, 1)),
    (0, (0, 0, 0, 0)),
    (2, (0, 0, 0, 0)),
    (0, (0, 0, 0, 0)),
    (0, (0, 0, 0, 0)),
    (1, (0, 0, 0, 0)),
    (0, (0, 0, 0, 0)),
];

/// Prints how machines are led to their end, and through steps, and when a machine is at rest.
pub fn print_leading(rt: &impl Print, alloc: Global) -> io::Result<()> {
    match Coordinator::new(alloc, 2, Engine::Locking, None) {
        Ok(mut coordinator) => print_pair(rt, &mut coordinator)?,
        Err(fault) => println!(rt; "pair: {fault}")?,
    }
    let store = Store {
        vertices: 2,
        edges: 1,
        newest: 0,
        length: 100,
    };
    match Coordinator::new(alloc, 2, Engine::Chromatic(2), Some(store)) {
        Ok(mut coordinator) => print_steps(rt, &mut coordinator)?,
        Err(fault) => println!(rt; "steps: {fault}")?,
    }
    print_rests(rt, alloc)
}

/// Machines that are idle are led to their end.
fn print_pair(rt: &impl Print, coordinator: &mut Coordinator) -> io::Result<()> {
    let mut first = WaveCounts::new();
    let mut second = WaveCounts::new();
    print_due(rt, "pair, due at first", coordinator.due())?;
    for worked in &PAIR {
        work_both(&mut first, &mut second, *worked);
        print_wave(rt, "pair", coordinator, &mut first, &mut second, true)?;
    }
    let left = coordinator.outbox_take(MachineNo(0)).is_some();
    println!(rt; "pair, a message left for machine 0: {left}")
}

/// Machines that never rest are led through steps: the next one is due where two waves behind the
/// last were even, and told the same.
fn print_steps(rt: &impl Print, coordinator: &mut Coordinator) -> io::Result<()> {
    let mut first = WaveCounts::new();
    let mut second = WaveCounts::new();
    for (colour, worked) in &STEPS {
        work_both(&mut first, &mut second, *worked);
        if *colour > 0 {
            print_step(rt, coordinator)?;
        } else {
            print_due(rt, "steps, due", coordinator.due())?;
            print_answer(rt, "steps, a step in place of the wave", coordinator.step())?;
            print_wave(rt, "steps", coordinator, &mut first, &mut second, false)?;
        }
    }
    Ok(())
}

fn work_both(first: &mut WaveCounts, second: &mut WaveCounts, worked: Worked) {
    work(first, worked.0, worked.1);
    work(second, worked.2, worked.3);
}

/// The machine sends and receives so many messages more.
fn work(counts: &mut WaveCounts, sent: u64, received: u64) {
    for _ in 0..sent {
        counts.add_sent();
    }
    for _ in 0..received {
        counts.add_received();
    }
}

/// A wave is put out, and no other before both have answered it.
fn print_wave(
    rt: &impl Print,
    name: &str,
    coordinator: &mut Coordinator,
    first: &mut WaveCounts,
    second: &mut WaveCounts,
    idle: bool,
) -> io::Result<()> {
    println!(rt;
        "{name}, wave: {}, another: {}",
        text_of(coordinator.wave()),
        text_of(coordinator.wave())
    )?;
    let answered = answer(coordinator, 0, first, idle);
    print!(rt; "{name}, machine 0 answers: {answered}, ")?;
    print_due(rt, "due", coordinator.due())?;
    let answered = answer(coordinator, 1, second, idle);
    print!(rt; "{name}, machine 1 answers: {answered}, ")?;
    print_due(rt, "due", coordinator.due())
}

/// The machine takes its wave, answers that it is idle or not, and the coordinator receives the
/// answer. Tells whether it held the wave until then, and the answer was awaited.
fn answer(
    coordinator: &mut Coordinator,
    machine: u16,
    counts: &mut WaveCounts,
    idle: bool,
) -> bool {
    let m = MachineNo(machine);
    let Some(Message::Wave { wave }) = coordinator.outbox_take(m) else {
        return false;
    };
    counts.begin_answer(wave);
    let held = counts.holds_wave();
    let Ok(sent) = counts.put_out(0) else {
        return false;
    };
    let Some(answer) = counts.answer(true, sent, 1, idle) else {
        return false;
    };
    let message = Message::Count {
        wave: answer.wave,
        counted: answer.counted,
    };
    let awaited = coordinator.awaits(m, answer.wave);
    if awaited {
        coordinator.receive(m, message);
    }
    held && !counts.holds_wave() && awaited
}

/// A step begins in place of a wave, and both machines are told its colour.
fn print_step(rt: &impl Print, coordinator: &mut Coordinator) -> io::Result<()> {
    print_due(rt, "steps, due", coordinator.due())?;
    print_answer(rt, "steps, a wave in place of the step", coordinator.wave())?;
    print_answer(rt, "steps, the step", coordinator.step())?;
    println!(rt;
        "steps, colour for machine 0: {}, for machine 1: {}",
        colour_for(coordinator, 0),
        colour_for(coordinator, 1)
    )
}

/// The colour of the step that the machine is told to begin, and 0 for another message.
fn colour_for(coordinator: &mut Coordinator, machine: u16) -> u32 {
    match coordinator.outbox_take(MachineNo(machine)) {
        Some(Message::Step { colour }) => colour,
        _ => 0,
    }
}

fn print_answer(rt: &impl Print, name: &str, answer: Result<(), Refused>) -> io::Result<()> {
    println!(rt; "{name}: {}", text_of(answer))
}

fn text_of(answer: Result<(), Refused>) -> &'static str {
    match answer {
        Ok(()) => "done",
        Err(Refused::NotNow) => "not now",
        Err(Refused::NoMemory) => "out of memory",
    }
}

fn print_due(rt: &impl Print, name: &str, due: Due) -> io::Result<()> {
    match due {
        Due::Record(number) => println!(rt; "{name}: record {number}"),
        Due::Snapshot(number) => println!(rt; "{name}: snapshot {number}"),
        Due::Ended => println!(rt; "{name}: the end"),
        Due::Step(colour) => println!(rt; "{name}: step of colour {colour}"),
        Due::Wave => println!(rt; "{name}: a wave"),
        Due::Nothing => println!(rt; "{name}: nothing"),
    }
}

/// Prints whether a machine is at rest without a task, with one, and with a scope in flight.
fn print_rests(rt: &impl Print, alloc: Global) -> io::Result<()> {
    match ScopePipe::new(alloc, MachineNo(0), 1) {
        Ok(mut pipe) => print_rests_of(rt, alloc, &mut pipe),
        Err(fault) => println!(rt; "rest: {fault}"),
    }
}

fn print_rests_of(rt: &impl Print, alloc: Global, pipe: &mut ScopePipe) -> io::Result<()> {
    print_rest(rt, alloc, "no task and no scope", pipe, 0)?;
    print_rest(rt, alloc, "a task", pipe, 1)?;
    let admitted = pipe.next_id().serial < u64::MAX && pipe.admit(Vertex(0)).is_ok();
    println!(rt; "a scope is admitted: {admitted}")?;
    print_rest(rt, alloc, "a scope in flight", pipe, 0)
}

fn print_rest(
    rt: &impl Print,
    alloc: Global,
    name: &str,
    pipe: &ScopePipe,
    count: u32,
) -> io::Result<()> {
    match TaskSet::new(alloc, count, None) {
        Ok(mut tasks) => print_rest_of(rt, name, pipe, &mut tasks),
        Err(fault) => println!(rt; "machine with {name}: {fault}"),
    }
}

fn print_rest_of(
    rt: &impl Print,
    name: &str,
    pipe: &ScopePipe,
    tasks: &mut TaskSet,
) -> io::Result<()> {
    let at_rest = is_at_rest(tasks, pipe);
    println!(rt;
        "machine with {name}: at rest {at_rest}, has a next task {}",
        tasks.next().is_some()
    )
}
