//! One machine of an attempt, and those of all parts of a graph.
ghost use Rattle.std.specs.Prelude.{◌≡◌, ℕ, length, IfOk};
ghost use Rattle.placed_machines.specs.Inner.Making.{AreUnsetParts, CanAllSave, CanSave, Cluster, HaveAdmitted, IsAnyMachineOf, IsUnsetPart, Machine, SavesBy, Setting, StandFirst, goes_back, with_locking};

use crate::any_machine::AnyMachine;
use crate::members::new_member;
use crate::placing::Places;
use gl_base::{Base, NoMemory};
use local_graph::LocalGraph;
use placement::graphs::first_numbers;
use placement::places::{NewTerms, new_core};
use snapshot_machines::saving::SnapMachine;
use std::alloc::Global;
use update_api::Program;

/// A new machine that holds this part of a graph, begins with the numbers of the base, and is of
/// the places' engine.
fn new_locking<P: Program>(
    alloc: Global,
    local: LocalGraph,
    program: P,
    base: &Base,
    places: &Places,
    terms: NewTerms,
) -> Result<AnyMachine<P>, NoMemory>
    requires { CanSave local (P.meaning program) base.now terms places.now }
    ensures { (st : Setting) (m : Machine) →
        SavesBy st (P.meaning program) base.now terms places.now →
        IsUnsetPart (with_locking st) local.me.0 local → m.part.serial ≡ terms.serial →
        IfOk result (IsAnyMachineOf P.meaning st local.me.0
        (goes_back st st.start st.base local.me.0 m)) }
{
    let numbers = first_numbers(alloc, local, base, places.run.window)?;
    let core = new_core(alloc, numbers, terms)?;
    let machine = SnapMachine::new(alloc, core, program)?;
    new_member(alloc, machine, places)
}

/// What the machines of an attempt go by: the base from which it begins, where the graph is, and
/// the terms of a new machine but for its serial.
#[derive(Clone, Copy)]
pub struct MemberTerms<'a> {
    pub base: &'a Base,
    pub places: &'a Places,
    pub terms: NewTerms,
}

/// A new machine for each part, in turn, each with its serial.
pub fn new_members<P: Program>(
    alloc: Global,
    parts: Vec<LocalGraph>,
    program: P,
    by: &MemberTerms<'_>,
    serials: &[u64],
) -> Result<Vec<AnyMachine<P>>, NoMemory>
    requires can { CanAllSave parts.items (P.meaning program)
        by.now.base.now by.now.terms by.now.places.now }
    requires serials { length serials.now ≡ length parts.items }
    ensures stand { (st : Setting) (before : Cluster) →
        SavesBy st (P.meaning program) by.now.base.now by.now.terms by.now.places.now →
        AreUnsetParts (with_locking st) parts.items → HaveAdmitted st serials.now before →
        IfOk result (λ placed. StandFirst P.meaning st before placed.items) }
    ensures many { IfOk result (λ placed. length placed.items ≡ length parts.items) }
{
    let mut placed = Vec::with_capacity(alloc, parts.len())?;
    for local in parts {
        let own = with_serial(by.terms, serials[placed.len()]);
        placed.push(new_locking(alloc, local, program, by.base, by.places, own)?)?;
    }
    Ok(placed)
}

/// The same terms, where the first scope gets this serial.
fn with_serial(terms: NewTerms, serial: u64) -> NewTerms
    ensures { result ≡ record terms { serial = serial } }
{
    NewTerms {
        terms: terms.terms,
        machines: terms.machines,
        vertices: terms.vertices,
        serial,
    }
}
