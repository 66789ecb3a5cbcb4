//! What is known of a store, and the sections of a snapshot that have come.
ghost use Rattle.std.specs.Prelude.{◌≡◌, ◌↔◌, ◌*◌, ◌≤◌, None, IsTrue, IfOk, length, map, option_map, replicate};
ghost use Rattle.coordinator.specs.coord_core.Saving.{HaveAllCome, entries_come, entries_told, section_view};

use gl_base::NoMemory;
use std::alloc::Global;
use wire::wire_msgs::Section;

/// What is known of a store as an attempt begins: how many vertices and edges its graph has, the
/// number of its newest snapshot, and how many bytes of its file are in use.
#[derive(Clone, Copy)]
pub struct Store {
    pub vertices: u32,
    pub edges: u32,
    pub newest: u32,
    pub length: u64,
}

/// No section of so many machines has come.
pub fn no_sections(alloc: Global, machines: u16) -> Result<Vec<Option<Section>>, NoMemory>
    ensures { IfOk result (λ come.
        map (option_map section_view) come.items ≡ replicate machines None) }
{
    let mut come = Vec::with_capacity(alloc, machines as usize)?;
    for _ in 0..machines {
        come.push_reserved(None);
    }
    Ok(come)
}

/// Whether the sections of all machines have come.
pub fn have_all_come(come: &[Option<Section>]) -> bool
    ensures { IsTrue result ↔ HaveAllCome (map (option_map section_view) come.now) }
{
    for section in come {
        if section.is_none() {
            return false;
        }
    }
    true
}

/// How many entries the sections have that have come.
pub fn count_entries(come: &[Option<Section>]) -> u128
    ensures sum { result ≡ entries_come (length come.now) (map (option_map section_view) come.now) }
    ensures bound { result ≤ length come.now * 18446744073709551615 }
{
    let mut entries = 0;
    for section in come {
        entries += count_of(section) as u128;
    }
    entries
}

/// The sections are gone.
pub fn forget(come: &mut [Option<Section>])
    ensures { map (option_map section_view) come.new ≡ replicate (length come.old) None }
{
    for section in come.iter_mut() {
        *section = None;
    }
}

/// How many entries a section has, none where it has not come.
fn count_of(section: &Option<Section>) -> usize
    ensures { result ≡ length (entries_told (option_map section_view section.now)) }
{
    match section {
        Some(section) => section.entries.len(),
        None => 0,
    }
}
