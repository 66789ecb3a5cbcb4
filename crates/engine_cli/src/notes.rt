//! Writes on standard error why a call was refused.
ghost use Rattle.std.specs.Prelude.{◌≡◌, ◌≤◌, [], ◌∷◌, codes, decimal, map};
ghost use Rattle.gl_base.specs.declared.job_faults.JobFault.TheVariants.{OutOfRange};
ghost use Rattle.store.specs.declared.store_format.faults.StoreFault.TheVariants.{Machines};
ghost use Rattle.engine_cli.specs.Notes.{WritesNote, atoms_kind_name, atoms_note, full_note, graph_note, job_note, note_of, joined, store_note};
ghost use Rattle.engine_cli.specs.Frame.{KeepsSink};
ghost use Rattle.engine_cli.specs.Inner.Writes.{WritesAll};
ghost use Rattle.gl_base.specs.FaultNames.{key_name};

use crate::Status;
use gl_base::{AtomsFault, AtomsKind, JobFault, Key, TextFault, TextFile, TextKind};
use gl_outside::{Failed, Sink, write_all};
use itoa::Buffer;
use store::store_format::StoreFault;

/// The verbs and their words.
const USAGE: &str =
    "usage: glab run|resume|init|cut JOB\nusage: glab make PREFIX --number N --vertices N --edges N [--weight N]\n";

/// Writes why a call was refused, and hands on the status. A fault of `note` is passed over.
pub fn refuse<N: Sink>(note: &mut N, status: Status) -> Status
    ensures status { result ≡ status }
    ensures note { WritesNote (note_of result) (N.held note.old) (N.held note.new)
        (N.faults note.old) (N.faults note.new) }
    ensures frame { KeepsSink N.same N.faults note.old note.new }
{
    let _ = tell(note, &status);
    status
}

/// Writes one line for the status, and nothing for `Done`.
fn tell<N: Sink>(note: &mut N, status: &Status) -> Result<(), Failed>
    ensures note { WritesAll result (note_of status.now) (N.held note.old) (N.held note.new)
        (N.faults note.old) (N.faults note.new) }
    ensures later { N.faults note.old ≤ N.faults note.new }
    ensures same { N.same note.old note.new }
{
    match status {
        Status::Done => Ok(()),
        Status::Usage(_) => write_text(note, USAGE),
        Status::BadJob(fault) => tell_job(note, fault),
        Status::BadGraph(fault) => tell_graph(note, *fault),
        Status::BadAtoms(fault) => tell_atoms(note, *fault),
        Status::ReadFault => write_text(note, "read fault\n"),
        Status::WriteFault => write_text(note, "write fault\n"),
        Status::DiskFault => write_text(note, "disk fault\n"),
        Status::BadStore(fault) => tell_store(note, fault),
        Status::BudgetSpent { .. } => write_text(note, "budget spent\n"),
        Status::SnapshotsFull { stored, length } => tell_full(note, *stored, *length),
        Status::NoMemory => write_text(note, "out of memory\n"),
    }
}

/// Writes why a job was refused.
fn tell_job<N: Sink>(note: &mut N, fault: &JobFault) -> Result<(), Failed>
    ensures note { WritesAll result (job_note fault.now) (N.held note.old) (N.held note.new)
        (N.faults note.old) (N.faults note.new) }
    ensures later { N.faults note.old ≤ N.faults note.new }
    ensures same { N.same note.old note.new }
{
    match fault {
        JobFault::NotJson => write_text(note, "job: not json\n"),
        JobFault::TooLong => write_text(note, "job: too long\n"),
        JobFault::UnknownKey(name) => write_line(note, "job: unknown key ", name.as_str()),
        JobFault::Missing(key) => tell_key(note, "job: missing key ", *key),
        JobFault::WrongKind(key) => tell_key(note, "job: wrong kind ", *key),
        JobFault::OutOfRange(key, value) => tell_range(note, *key, *value),
        JobFault::Clash(key) => tell_key(note, "job: clash ", *key),
    }
}

/// Writes a text and the key that it is about.
fn tell_key<N: Sink>(note: &mut N, text: &str, key: Key) -> Result<(), Failed>
    ensures note { WritesAll result (joined (text.now ∷ key_name key ∷ codes "\n" ∷ []))
        (N.held note.old) (N.held note.new) (N.faults note.old) (N.faults note.new) }
    ensures later { N.faults note.old ≤ N.faults note.new }
    ensures same { N.same note.old note.new }
{
    write_line(note, text, key.name())
}

/// Writes which key's value is out of its range.
fn tell_range<N: Sink>(note: &mut N, key: Key, value: u64) -> Result<(), Failed>
    ensures note { WritesAll result (job_note (OutOfRange key value)) (N.held note.old)
        (N.held note.new) (N.faults note.old) (N.faults note.new) }
    ensures later { N.faults note.old ≤ N.faults note.new }
    ensures same { N.same note.old note.new }
{
    let mut digits = Buffer::new();
    let value = digits.format(value);
    write_texts(note, &["job: out of range ", key.name(), " ", value, "\n"])
}

/// Writes why a graph text was refused, and where.
fn tell_graph<N: Sink>(note: &mut N, fault: TextFault) -> Result<(), Failed>
    ensures note { WritesAll result (graph_note fault) (N.held note.old) (N.held note.new)
        (N.faults note.old) (N.faults note.new) }
    ensures later { N.faults note.old ≤ N.faults note.new }
    ensures same { N.same note.old note.new }
{
    let mut digits = Buffer::new();
    let line = digits.format(fault.line);
    let kind = fault.kind.name();
    write_texts(
        note,
        &["graph: ", fault.file.name(), ":", line, ": ", kind, "\n"],
    )
}

/// Writes why the files of a cut were refused, and where.
fn tell_atoms<N: Sink>(note: &mut N, fault: AtomsFault) -> Result<(), Failed>
    ensures note { WritesAll result (atoms_note fault) (N.held note.old) (N.held note.new)
        (N.faults note.old) (N.faults note.new) }
    ensures later { N.faults note.old ≤ N.faults note.new }
    ensures same { N.same note.old note.new }
{
    let mut number = Buffer::new();
    let mut digits = Buffer::new();
    let file = number.format(fault.file);
    let at = digits.format(fault.at);
    let kind = kind_name(fault.kind);
    write_texts(note, &["atoms: ", file, ": ", kind, " at ", at, "\n"])
}

/// A fault of the files of a cut, in a word or two.
fn kind_name(kind: AtomsKind) -> &'static str
    ensures { result.now ≡ atoms_kind_name kind }
{
    match kind {
        AtomsKind::Torn => "torn",
        AtomsKind::BadTag => "bad tag",
        AtomsKind::OutOfOrder => "out of order",
        AtomsKind::Trailing => "trailing",
        AtomsKind::Owner => "owner",
        AtomsKind::Differs => "differs",
        AtomsKind::TooLong => "too long",
    }
}

/// Writes why a store was refused.
fn tell_store<N: Sink>(note: &mut N, fault: &StoreFault) -> Result<(), Failed>
    ensures note { WritesAll result (store_note fault.now) (N.held note.old) (N.held note.new)
        (N.faults note.old) (N.faults note.new) }
    ensures later { N.faults note.old ≤ N.faults note.new }
    ensures same { N.same note.old note.new }
{
    match fault {
        StoreFault::Torn(at) => tell_number(note, "store: torn at ", *at),
        StoreFault::BadByte(at) => tell_number(note, "store: bad byte at ", *at),
        StoreFault::Machines { kept, given } => tell_machines(note, *kept, *given),
        StoreFault::Graph { .. } => write_text(note, "store: other graph\n"),
        StoreFault::Program { .. } => write_text(note, "store: other program\n"),
        StoreFault::Used(count) => tell_number(note, "store: used ", *count as u64),
        StoreFault::NotEmpty(length) => tell_number(note, "store: not empty ", *length),
    }
}

/// Writes how many snapshots and bytes a store has that has no room.
fn tell_full<N: Sink>(note: &mut N, stored: u32, length: u64) -> Result<(), Failed>
    ensures note { WritesAll result (full_note stored length) (N.held note.old) (N.held note.new)
        (N.faults note.old) (N.faults note.new) }
    ensures later { N.faults note.old ≤ N.faults note.new }
    ensures same { N.same note.old note.new }
{
    let mut first = Buffer::new();
    let mut second = Buffer::new();
    let stored = first.format(stored);
    let length = second.format(length);
    write_texts(
        note,
        &["snapshots full: ", stored, " stored, ", length, " bytes\n"],
    )
}

/// Writes a text and a number.
fn tell_number<N: Sink>(note: &mut N, text: &str, number: u64) -> Result<(), Failed>
    ensures note { WritesAll result (joined (text.now ∷ decimal number ∷ codes "\n" ∷ []))
        (N.held note.old) (N.held note.new) (N.faults note.old) (N.faults note.new) }
    ensures later { N.faults note.old ≤ N.faults note.new }
    ensures same { N.same note.old note.new }
{
    let mut digits = Buffer::new();
    let number = digits.format(number);
    write_line(note, text, number)
}

/// Writes that a store is for other machines.
fn tell_machines<N: Sink>(note: &mut N, kept: u16, given: u16) -> Result<(), Failed>
    ensures note { WritesAll result (store_note (Machines kept given)) (N.held note.old)
        (N.held note.new) (N.faults note.old) (N.faults note.new) }
    ensures later { N.faults note.old ≤ N.faults note.new }
    ensures same { N.same note.old note.new }
{
    let mut first = Buffer::new();
    let mut second = Buffer::new();
    let kept = first.format(kept);
    let given = second.format(given);
    write_texts(note, &["store: machines ", kept, " ", given, "\n"])
}

/// Writes a text.
fn write_text<N: Sink>(note: &mut N, text: &str) -> Result<(), Failed>
    ensures note { WritesAll result text.now (N.held note.old) (N.held note.new)
        (N.faults note.old) (N.faults note.new) }
    ensures later { N.faults note.old ≤ N.faults note.new }
    ensures same { N.same note.old note.new }
{
    write_all(note, text.as_bytes())?;
    Ok(())
}

/// Writes a line of two texts.
fn write_line<N: Sink>(note: &mut N, text: &str, word: &str) -> Result<(), Failed>
    ensures note { WritesAll result (joined (text.now ∷ word.now ∷ codes "\n" ∷ []))
        (N.held note.old) (N.held note.new) (N.faults note.old) (N.faults note.new) }
    ensures later { N.faults note.old ≤ N.faults note.new }
    ensures same { N.same note.old note.new }
{
    write_texts(note, &[text, word, "\n"])
}

/// Writes these texts, one after another.
fn write_texts<N: Sink>(note: &mut N, texts: &[&str]) -> Result<(), Failed>
    ensures note { WritesAll result (joined (map (λ t.
        t.now) texts.now)) (N.held note.old) (N.held note.new)
        (N.faults note.old) (N.faults note.new) }
    ensures later { N.faults note.old ≤ N.faults note.new }
    ensures same { N.same note.old note.new }
{
    for text in texts {
        write_all(note, text.as_bytes())?;
    }
    Ok(())
}
