//! A machine that goes by colours and takes part in snapshots.
ghost use Rattle.std.specs.Prelude.{◌≡◌, length, IfOk};
ghost use Rattle.snapshot_machines.specs.chromatic.Machines.{IsColorSnapOf, IsFreshInSteps, Setting, in_no_step};

use crate::saving::SnapMachine;
use gl_base::NoMemory;
use std::alloc::Global;
use std::marker::Model;
use task_sets::color_tasks::ColorLines;
use update_api::Program;

/// A machine with its program and with what it keeps for snapshots, which takes no locks: in a step
/// it admits vertices of the step's colour alone, and their scopes are ready at once. Its tasks
/// that are not admitted stand in line by colour, and so do its vertices that are pending.
/// Contracts see the machine's parts, the colours of its vertices by place, and the step that it is
/// in.
#[derive(Drop)]
pub struct ColorSnapMachine<P: Program> {
    pub(crate) machine: SnapMachine<P>,
    pub(crate) lines: ColorLines,
    pub(crate) asked: ColorLines,
    pub(crate) colour: u32,
    pub(crate) closed: bool,
}

impl<P: Program> Model for ColorSnapMachine<P> {
    ghost use Rattle.snapshot_machines.specs.chromatic.Machines.{ColorSnapView};
    ghost use Rattle.snapshot_machines.specs.chromatic.Inner.Keeping.{IsKeptInSteps, seen_in_steps};

    ghost Value = { ColorSnapView P };

    ghost view = { λ m. seen_in_steps m.machine m.lines.colours m.colour m.closed };

    ghost invariant = { λ m.
        IsKeptInSteps P.meaning
        (seen_in_steps m.machine m.lines.colours m.colour m.closed) m.lines m.asked };
}

impl<P: Program> ColorSnapMachine<P> {
    /// The machine, where its own vertices have these colours, by their places: it is in no step
    /// yet, so it admits nothing before it is told of the first. Each of its vertices is a task,
    /// and nothing is under way.
    pub fn new(
        alloc: Global,
        machine: SnapMachine<P>,
        colours: &[u32],
    ) -> Result<ColorSnapMachine<P>, NoMemory>
        requires fresh { IsFreshInSteps machine.core (length colours.now) }
        requires setting { (st : Setting) ×
            IsColorSnapOf P.meaning st (in_no_step machine colours.now) }
        ensures { IfOk result (λ m. m ≡ in_no_step machine colours.now) }
    {
        let lines = ColorLines::full(alloc, colours)?;
        let asked = ColorLines::new(alloc, colours)?;
        Ok(ColorSnapMachine {
            machine,
            lines,
            asked,
            colour: 0,
            closed: true,
        })
    }
}
