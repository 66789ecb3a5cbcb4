//! What a driver of a cluster tries next.
use full_cluster::{Division, FullEvent};
use gl_base::{MachineNo, NoMemory, Vertex};
use std::alloc::Global;
use std::collections::VecDeque;

/// Vertices that wait until their machine can admit a scope of theirs, the first first.
#[derive(Drop)]
struct Line {
    vertices: VecDeque<Vertex>,
}

/// Events to try, the first first. An event that can't happen when its turn comes is passed over, so
/// none has to be taken back. A vertex that is a task, and has no scope in flight, waits in the line
/// of its machine or is to be admitted by an event here.
#[derive(Drop)]
pub(crate) struct Agenda {
    events: VecDeque<FullEvent>,
    lines: Vec<Line>,
    /// Vertices of the update that is tried which were no tasks before it.
    asleep: VecDeque<Vertex>,
}

impl Agenda {
    /// Every vertex waits in the line of its owner, ascending, and each machine is to admit its
    /// first.
    pub(crate) fn new(
        alloc: Global,
        division: &Division<'_>,
        machines: u16,
    ) -> Result<Agenda, NoMemory> {
        let mut agenda = Agenda {
            events: VecDeque::new(alloc),
            lines: empty_lines(alloc, machines)?,
            asleep: VecDeque::new(alloc),
        };
        agenda.line_up_all(division)?;
        agenda.admit_first(machines)?;
        Ok(agenda)
    }

    fn line_up_all(&mut self, division: &Division<'_>) -> Result<(), NoMemory> {
        for v in 0..division.graph.n() {
            let v = Vertex(v);
            self.line_up(division.owner_of(v), v)?;
        }
        Ok(())
    }

    fn admit_first(&mut self, machines: u16) -> Result<(), NoMemory> {
        for a in 0..machines {
            self.admit_next(MachineNo(a))?;
        }
        Ok(())
    }

    /// Takes the next event to try; `None` where there is none.
    pub(crate) fn next(&mut self) -> Option<FullEvent> {
        self.events.pop_front()
    }

    /// The event is tried after all others.
    pub(crate) fn put(&mut self, event: FullEvent) -> Result<(), NoMemory> {
        self.events.push_back(event)?;
        Ok(())
    }

    /// The vertex waits in the line of this machine.
    pub(crate) fn line_up(&mut self, machine: MachineNo, vertex: Vertex) -> Result<(), NoMemory> {
        let place = machine.0 as usize;
        if place < self.lines.len() {
            self.lines[place].vertices.push_back(vertex)?;
        }
        Ok(())
    }

    /// The first in the line of this machine is to be admitted, if somebody waits there.
    pub(crate) fn admit_next(&mut self, machine: MachineNo) -> Result<(), NoMemory> {
        match self.first_in_line(machine) {
            Some(vertex) => self.put(FullEvent::Admit { machine, vertex }),
            None => Ok(()),
        }
    }

    /// Takes the first in the line of this machine; `None` where nobody waits there.
    fn first_in_line(&mut self, machine: MachineNo) -> Option<Vertex> {
        let place = machine.0 as usize;
        if place >= self.lines.len() {
            return None;
        }
        self.lines[place].vertices.pop_front()
    }

    /// The vertex is no task before the update that is tried.
    pub(crate) fn remember_asleep(&mut self, vertex: Vertex) -> Result<(), NoMemory> {
        self.asleep.push_back(vertex)?;
        Ok(())
    }

    /// How many vertices are remembered so.
    pub(crate) fn asleep_count(&self) -> usize {
        self.asleep.len()
    }

    /// Takes the first that is remembered so; `None` where none is.
    pub(crate) fn next_asleep(&mut self) -> Option<Vertex> {
        self.asleep.pop_front()
    }
}

/// So many lines in which nobody waits.
fn empty_lines(alloc: Global, machines: u16) -> Result<Vec<Line>, NoMemory> {
    let mut lines = Vec::with_capacity(alloc, machines as usize)?;
    for _ in 0..machines {
        lines.push(Line {
            vertices: VecDeque::new(alloc),
        })?;
    }
    Ok(lines)
}
