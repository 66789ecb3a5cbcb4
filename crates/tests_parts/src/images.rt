//! What a crash within one call leaves.
use crate::series::Series;
use crate::stored::{print_stored, read_store};
use std::alloc::{AllocError, Global};
use std::io;

/// Prints what images between two moments are read as: the new bytes up to each place and what
/// there was of the old ones from there on, the new bytes with any byte in place of those that were
/// written, and the new bytes.
pub fn print_images(rt: &impl Print, alloc: Global, old: &[u8], new: &[u8]) -> io::Result<()> {
    print_joined(rt, alloc, old, new)?;
    print_spoiled(rt, alloc, old, new)?;
    print!(rt; "all new bytes: ")?;
    print_stored(rt, &read_store(alloc, Vec::from_slice(alloc, new)?))
}

fn print_joined(rt: &impl Print, alloc: Global, old: &[u8], new: &[u8]) -> io::Result<()> {
    let mut series = Series::new();
    for place in 0..new.len() {
        let image = joined(alloc, new, old, place)?;
        series.go_on(
            rt,
            "new bytes up to a place",
            place as u64,
            read_store(alloc, image),
        )?;
    }
    series.end(rt, "new bytes up to a place", new.len() as u64)
}

fn print_spoiled(rt: &impl Print, alloc: Global, old: &[u8], new: &[u8]) -> io::Result<()> {
    let mut series = Series::new();
    for byte in 0..256u16 {
        let image = spoiled(alloc, new, old, byte as u8)?;
        series.go_on(
            rt,
            "written bytes, each a byte",
            u64::from(byte),
            read_store(alloc, image),
        )?;
    }
    series.end(rt, "written bytes, each a byte", 256)
}

/// The new bytes up to a place, and the old ones from there on.
fn joined(alloc: Global, new: &[u8], old: &[u8], place: usize) -> Result<Vec<u8>, AllocError> {
    let mut image = Vec::from_slice(alloc, new)?;
    image.truncate(place);
    if let Some(rest) = old.get(place..) {
        image.extend_from_slice(rest)?;
    }
    Ok(image)
}

/// The new bytes, where each that isn't the old one at its place is this one.
fn spoiled(alloc: Global, new: &[u8], old: &[u8], byte: u8) -> Result<Vec<u8>, AllocError> {
    let mut image = Vec::new(alloc);
    for (place, here) in new.iter().enumerate() {
        let stays = old.get(place) == Some(here);
        image.push(if stays { *here } else { byte })?;
    }
    Ok(image)
}
