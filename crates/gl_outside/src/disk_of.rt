//! A file as a disk.
ghost use Rattle.std.specs.Prelude.{◌≡◌, IsTrue, refl};
ghost use Rattle.std.proofs.Common.{◌∙◌};
ghost use Rattle.gl_outside.specs.FilesState.{disk_name, disk_past, is_opened};
ghost use Rattle.gl_outside.specs.Frames.{ChangesDisk};
ghost use Rattle.gl_outside.specs.Inner.Laws.{ChangesDisk-refl, ChangesDisk-trans, under_image};

use crate::{Disk, Failed, FileNo, Files};

/// One file that is open as a disk. Its count of faults is that of the disks of the files.
#[derive(Drop)]
pub struct DiskOf<'a, F: Files> {
    pub files: &'a mut F,
    pub file: FileNo,
    ghost opened: { IsTrue (is_opened (F.state files.now).disks file.0) },
}

impl<'a, F: Files> DiskOf<'a, F> {
    /// The disk over a file that was opened as one.
    pub fn new(files: &'a mut F, file: FileNo) -> Self
        requires { IsTrue (is_opened (F.state files.old).disks file.0) }
        ensures reference { result.files.ghost_name ≡ files.entry.ghost_name }
        ensures files { result.files.now ≡ files.old }
        ensures file { result.file ≡ file }
    {
        DiskOf { files, file }
    }
}

impl<'a, F: Files> Disk for DiskOf<'a, F> {
    ghost faults = { λ s. (F.state s.files.now).disks.faults };

    ghost observable = { F.disks_observable };

    ghost past = { λ s. disk_past (F.state s.files.now) s.file.0 };

    ghost same = { λ s t. (t.files.ghost_name ≡ s.files.ghost_name) × (t.file.0 ≡ s.file.0) ×
        ChangesDisk s.file.0 (F.state s.files.now) (F.state t.files.now) };

    ghost same_refl = { λ a. (refl, refl, ChangesDisk-refl a.file.0 (F.state a.files.now)) };

    ghost same_trans = { λ a b c p q. (
      q.0 ∙ p.0,
      q.1 ∙ p.1,
      ChangesDisk-trans a.file.0 b.file.0 (F.state a.files.now) (F.state b.files.now)
          (F.state c.files.now) p.1 p.2 q.2,
    ) };

    fn len(&mut self) -> Result<u64, Failed> {
        self.files.len(self.file)
    }

    fn read_at(&mut self, at: u64, buf: &mut [u8]) -> Result<usize, Failed> {
        self.files.read_at(self.file, at, buf)
    }

    fn write_at(&mut self, at: u64, piece: &[u8]) -> Result<(), Failed> {
        self.files.write_at(self.file, at, piece)
    }

    fn sync(&mut self) -> Result<(), Failed> {
        self.files.sync(self.file)
    }

    ghost reads_an_image = { λ disk told.
        under_image (F.state disk.files.now).pasts (disk_name (F.state disk.files.now) disk.file.0)
        (λ name. F.reads_an_image disk.files.now name told) };
}
