//! Stores in a series, of which those in turn that are read alike make one line.
use crate::stored::{Stored, are_alike, print_stored};
use std::io;
use store::snap_journal::JournalFault;

/// The last store of a series, and the number of the first that was read like it.
#[derive(Drop)]
pub struct Series {
    first: u64,
    last: Option<Result<Stored, JournalFault>>,
}

impl Series {
    /// A series before its first store.
    pub fn new() -> Series {
        Series {
            first: 0,
            last: None,
        }
    }

    /// The next store, of this number. Prints those before it if it is read otherwise.
    pub fn go_on(
        &mut self,
        rt: &impl Print,
        name: &str,
        number: u64,
        next: Result<Stored, JournalFault>,
    ) -> io::Result<()> {
        if self.is_like_last(&next) {
            return Ok(());
        }
        self.end(rt, name, number)?;
        self.first = number;
        self.last = Some(next);
        Ok(())
    }

    fn is_like_last(&self, next: &Result<Stored, JournalFault>) -> bool {
        match &self.last {
            Some(last) => are_alike(last, next),
            None => false,
        }
    }

    /// Prints the stores from the first on to before this number, if there are any.
    pub fn end(&self, rt: &impl Print, name: &str, end: u64) -> io::Result<()> {
        match &self.last {
            Some(last) => {
                print!(rt; "{name} from {} to before {end}: ", self.first)?;
                print_stored(rt, last)
            }
            None => Ok(()),
        }
    }
}
