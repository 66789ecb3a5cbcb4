//! Files by name.
use crate::bytes::text_of;
use gl_outside::{Files, SinkOf, Source, SourceOf, write_all};
use std::io;

/// Prints what reads with a buffer of two bytes give in turn.
pub fn print_reads<S: Source>(rt: &impl Print, source: &mut S, turns: u8) -> io::Result<()> {
    for _turn in 0..turns {
        print_read(rt, source)?;
    }
    Ok(())
}

fn print_read<S: Source>(rt: &impl Print, source: &mut S) -> io::Result<()> {
    let mut buf = [0; 2];
    match source.read(&mut buf) {
        Ok(count) => print!(rt; " [{}]", text_of(&buf[..count])),
        Err(_) => print!(rt; " failed"),
    }
}

/// Opens the file of this name, and prints what four such reads give.
pub fn print_file<F: Files>(rt: &impl Print, files: &mut F, name: &str) -> io::Result<()> {
    match files.open_source(name) {
        Ok(file) => print_reads(rt, &mut SourceOf::new(files, file), 4),
        Err(_) => print!(rt; " not opened"),
    }
}

/// Opens the file of this name and writes the text. Tells whether both are done.
pub fn is_written<F: Files>(files: &mut F, name: &str, text: &str) -> bool {
    match files.open_sink(name) {
        Ok(file) => write_all(&mut SinkOf::new(files, file), text.as_bytes()).is_ok(),
        Err(_) => false,
    }
}
