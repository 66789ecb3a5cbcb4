//! The programs of the algorithms that a job may name.
ghost use Rattle.std.specs.Prelude.{◌≡◌, ◌↔◌, None, IfSome};
ghost use Rattle.gl_base.specs.declared.jobs.Algorithm.TheVariants.{Pairs};
ghost use Rattle.graph_programs.specs.selection.ProgramUpdates.{update_of_program, update_of_algorithm};

use crate::prog_colours::Colours;
use crate::prog_cores::Cores;
use crate::prog_labels::{Components, Levels};
use crate::prog_paths::Paths;
use gl_base::Algorithm;
use update_api::{Program, Scope, Woken};

/// The program of one of the algorithms whose updates write their vertex and its edges.
#[derive(Clone, Copy)]
pub enum JobProgram {
    Levels(Levels),
    Components(Components),
    Paths(Paths),
    Colours(Colours),
    Cores(Cores),
}

impl JobProgram {
    /// The program of the algorithm. Where it asks for a source, that is the vertex with this
    /// identifier. Pairs have none: their updates write neighbours too.
    pub fn of(algorithm: Algorithm, source: u64) -> Option<JobProgram>
        ensures update { IfSome result (λ program.
            update_of_program program ≡ update_of_algorithm algorithm source) }
        ensures none { (result ≡ None) ↔ (algorithm ≡ Pairs) }
    {
        match algorithm {
            Algorithm::Levels => Some(JobProgram::Levels(Levels { source })),
            Algorithm::Components => Some(JobProgram::Components(Components)),
            Algorithm::Paths => Some(JobProgram::Paths(Paths { source })),
            Algorithm::Colours => Some(JobProgram::Colours(Colours)),
            Algorithm::Cores => Some(JobProgram::Cores(Cores)),
            Algorithm::Pairs => None,
        }
    }
}

impl Program for JobProgram {
    ghost meaning = { update_of_program };

    fn start(&self, id: u64) -> u64 {
        match self {
            JobProgram::Levels(levels) => levels.start(id),
            JobProgram::Components(components) => components.start(id),
            JobProgram::Paths(paths) => paths.start(id),
            JobProgram::Colours(colours) => colours.start(id),
            JobProgram::Cores(cores) => cores.start(id),
        }
    }

    fn update(&self, scope: &mut Scope<'_>) -> Woken {
        match self {
            JobProgram::Levels(levels) => levels.update(scope),
            JobProgram::Components(components) => components.update(scope),
            JobProgram::Paths(paths) => paths.update(scope),
            JobProgram::Colours(colours) => colours.update(scope),
            JobProgram::Cores(cores) => cores.update(scope),
        }
    }
}
