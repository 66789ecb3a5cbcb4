//! A file as a source.
ghost use Rattle.std.specs.Prelude.{◌≡◌, IsTrue, refl};
ghost use Rattle.std.proofs.Common.{◌∙◌};
ghost use Rattle.gl_outside.specs.FilesState.{is_opened, left_of};
ghost use Rattle.gl_outside.specs.Frames.{ReadsOnly};
ghost use Rattle.gl_outside.specs.Inner.Laws.{ReadsOnly-refl, ReadsOnly-trans};

use crate::{Failed, FileNo, Files, Source};

/// One file that is open for reading, as a source. Its count of faults is that of reading the
/// files.
#[derive(Drop)]
pub struct SourceOf<'a, F: Files> {
    pub files: &'a mut F,
    pub file: FileNo,
    ghost opened: { IsTrue (is_opened (F.state files.now).sources file.0) },
}

impl<'a, F: Files> SourceOf<'a, F> {
    /// The source over a file that was opened for reading.
    pub fn new(files: &'a mut F, file: FileNo) -> Self
        requires { IsTrue (is_opened (F.state files.old).sources file.0) }
        ensures reference { result.files.ghost_name ≡ files.entry.ghost_name }
        ensures files { result.files.now ≡ files.old }
        ensures file { result.file ≡ file }
    {
        SourceOf { files, file }
    }
}

impl<'a, F: Files> Source for SourceOf<'a, F> {
    ghost faults = { λ s. (F.state s.files.now).sources.faults };

    ghost left = { λ s. left_of (F.state s.files.now) s.file.0 };

    ghost same = { λ s t. (t.files.ghost_name ≡ s.files.ghost_name) × (t.file.0 ≡ s.file.0) ×
        ReadsOnly s.file.0 (F.state s.files.now) (F.state t.files.now) };

    ghost same_refl = { λ a. (refl, refl, ReadsOnly-refl a.file.0 (F.state a.files.now)) };

    ghost same_trans = { λ a b c p q. (
      q.0 ∙ p.0,
      q.1 ∙ p.1,
      ReadsOnly-trans a.file.0 b.file.0 (F.state a.files.now) (F.state b.files.now)
          (F.state c.files.now) p.1 p.2 q.2,
    ) };

    fn read(&mut self, buf: &mut [u8]) -> Result<usize, Failed> {
        self.files.read(self.file, buf)
    }
}
