//! Ghosts: of two data the one of the greater version stays.
use gl_base::{AtomNo, Datum, GhostLine, Vertex};
use scope_locks::ghost_cache::GhostCache;
use std::alloc::Global;
use std::io;

/// Prints what a cache of the one ghost 3 keeps.
pub fn print_ghosts(rt: &impl Print, alloc: Global) -> io::Result<()> {
    let line = GhostLine {
        vertex: Vertex(3),
        id: 30,
        atom: AtomNo(1),
    };
    match GhostCache::new(alloc, &[line], 4) {
        Ok(mut cache) => print_cache(rt, &mut cache),
        Err(fault) => println!(rt; "ghosts: {fault}"),
    }
}

fn print_cache(rt: &impl Print, cache: &mut GhostCache) -> io::Result<()> {
    println!(rt;
        "ghosts: vertex 3 {}, vertex 2 {}",
        cache.has(Vertex(3)),
        cache.has(Vertex(2))
    )?;
    print_ghost(rt, "at first", cache)?;
    if cache.has(Vertex(3)) {
        cache.set(Vertex(3), datum(2));
    }
    if cache.has(Vertex(3)) {
        cache.apply(Vertex(3), datum(1));
    }
    print_ghost(rt, "with version 2 set and version 1 applied", cache)
}

fn datum(version: u32) -> Datum {
    Datum {
        value: 7,
        version,
        mark: 0,
    }
}

fn print_ghost(rt: &impl Print, when: &str, cache: &GhostCache) -> io::Result<()> {
    if !cache.has(Vertex(3)) {
        return println!(rt; "ghost 3 {when}: none");
    }
    let datum = cache.get(Vertex(3));
    println!(rt;
        "ghost 3 {when}: number {}, version {}, mark {}",
        datum.value, datum.version, datum.mark
    )
}
