//! What the lines of a text say.
use gl_base::TextKind;
use std::alloc::AllocError;

/// The first three fields of a line. A number is `None` where the field isn't one, and `INF` where
/// it is above.
#[derive(Clone, Copy)]
pub enum Row {
    /// The line has no field, or is a comment.
    Nothing,
    One(Option<u64>),
    Two(Option<u64>, Option<u64>),
    Three(Option<u64>, Option<u64>, Option<u64>),
}

/// What a line says.
#[derive(Copy)]
pub enum Said<X> {
    /// Nothing.
    Passed,
    /// The line is faulty.
    Wrong(TextKind),
    /// The line is faulty, where nothing is wrong with the item alone.
    Late(X, TextKind),
    Item(X),
}

impl<X: Copy> Clone for Said<X> {
    fn clone(&self) -> Result<Self, AllocError> {
        Ok(*self)
    }
}

/// Why a text is read no further, and at which line.
#[derive(Copy)]
pub enum Ending<X> {
    /// The text is faulty.
    Fault(u32, TextKind),
    /// The text is faulty, where nothing is wrong with the item alone.
    Late(u32, X, TextKind),
    /// The item is one more than there may be, where nothing is wrong with it behind the others.
    Full(u32, X),
}

impl<X: Copy> Clone for Ending<X> {
    fn clone(&self) -> Result<Self, AllocError> {
        Ok(*self)
    }
}

/// Why a text was not read.
#[derive(Clone, Copy)]
pub enum Unread {
    /// The source failed.
    ReadFault,
    /// There was not enough memory.
    NoMemory,
}

/// Why a text is read no further.
#[derive(Copy)]
pub(crate) enum Halt<X> {
    Stopped(Ending<X>),
    ReadFault,
    NoMemory,
}

impl<X: Copy> Clone for Halt<X> {
    fn clone(&self) -> Result<Self, AllocError> {
        Ok(*self)
    }
}
