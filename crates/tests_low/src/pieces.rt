//! A source that gives a few bytes at a time.
ghost use Rattle.std.specs.Prelude.{◌<◌};

use gl_outside::{Failed, MemSource, Source};
use std::alloc::{AllocError, Global};

/// Another source, of which at most so many bytes are given at once.
#[derive(Drop)]
pub struct InPieces<S> {
    source: S,
    most: usize,
    ghost some: { 0 < most },
}

impl<S> InPieces<S> {
    pub fn new(source: S, most: usize) -> Self
        requires { 0 < most }
    {
        InPieces { source, most }
    }
}

impl<S: Source> Source for InPieces<S> {
    ghost faults = { λ s. S.faults s.source };

    ghost left = { λ s. S.left s.source };

    ghost same = { λ s t. S.same s.source t.source };

    ghost same_refl = { λ a. S.same_refl a.source };

    ghost same_trans = { λ a b c p q. S.same_trans a.source b.source c.source p q };

    fn read(&mut self, buf: &mut [u8]) -> Result<usize, Failed> {
        let most = self.most.min(buf.len());
        self.source.read(&mut buf[..most])
    }
}

/// The source of a text in pieces of at most `most` bytes, of which the call of the number
/// `failing` fails.
pub fn in_pieces(
    alloc: Global,
    text: &str,
    most: usize,
    failing: u64,
) -> Result<InPieces<MemSource>, AllocError> {
    let bytes = Vec::from_slice(alloc, text.as_bytes())?;
    let source = MemSource::new(bytes, vec![in alloc; failing]?);
    Ok(InPieces::new(source, most.max(1)))
}
