//! A file as a sink.
ghost use Rattle.std.specs.Prelude.{◌≡◌, IsTrue, refl};
ghost use Rattle.std.proofs.Common.{◌∙◌};
ghost use Rattle.gl_outside.specs.FilesState.{is_opened, written_of};
ghost use Rattle.gl_outside.specs.Frames.{WritesOnly};
ghost use Rattle.gl_outside.specs.Inner.Laws.{WritesOnly-refl, WritesOnly-trans};

use crate::{Failed, FileNo, Files, Sink};

/// One file that is open for writing, as a sink. Its count of faults is that of writing the files.
#[derive(Drop)]
pub struct SinkOf<'a, F: Files> {
    pub files: &'a mut F,
    pub file: FileNo,
    ghost opened: { IsTrue (is_opened (F.state files.now).sinks file.0) },
}

impl<'a, F: Files> SinkOf<'a, F> {
    /// The sink over a file that was opened for writing.
    pub fn new(files: &'a mut F, file: FileNo) -> Self
        requires { IsTrue (is_opened (F.state files.old).sinks file.0) }
        ensures reference { result.files.ghost_name ≡ files.entry.ghost_name }
        ensures files { result.files.now ≡ files.old }
        ensures file { result.file ≡ file }
    {
        SinkOf { files, file }
    }
}

impl<'a, F: Files> Sink for SinkOf<'a, F> {
    ghost faults = { λ s. (F.state s.files.now).sinks.faults };

    ghost held = { λ s. written_of (F.state s.files.now) s.file.0 };

    ghost same = { λ s t. (t.files.ghost_name ≡ s.files.ghost_name) × (t.file.0 ≡ s.file.0) ×
        WritesOnly s.file.0 (F.state s.files.now) (F.state t.files.now) };

    ghost same_refl = { λ a. (refl, refl, WritesOnly-refl a.file.0 (F.state a.files.now)) };

    ghost same_trans = { λ a b c p q. (
      q.0 ∙ p.0,
      q.1 ∙ p.1,
      WritesOnly-trans a.file.0 b.file.0 (F.state a.files.now) (F.state b.files.now)
          (F.state c.files.now) p.1 p.2 q.2,
    ) };

    fn write(&mut self, piece: &[u8]) -> Result<usize, Failed> {
        self.files.write(self.file, piece)
    }
}
