//! Laws about the bytes of records. Each is the contract of a function that does nothing.
ghost use Rattle.std.specs.Prelude.{◌≡◌, ℕ, length};
ghost use Rattle.gl_base.specs.declared.snapshots.Record.{Record};
ghost use Rattle.store.specs.declared.store_format.header.Header.{Header};
ghost use Rattle.store.specs.store_format.Encoding.{body_bytes, RecordFits};
ghost use Rattle.store.specs.store_format.StoredOrders.{body_entries};
ghost use Rattle.store.specs.store_format.StoredNumbers.{saved_or, vertex_number, edge_number};
ghost use Rattle.store.specs.store_format.ReadBack.{record_vertices, record_edges, NumbersFit};

/// The entries and the numbers of a record are read again from its body.
pub fn records_are_read_back()
    ensures entries { (next : Record) → RecordFits next → NumbersFit next →
        body_entries (body_bytes next) ≡ next.entries.items }
    ensures vertices { (header : Header) (next : Record) (v : ℕ) → RecordFits next →
        NumbersFit next → length next.sections.items ≡ header.machines →
        vertex_number header (body_bytes next) v ≡ saved_or 0 (record_vertices next) v }
    ensures edges { (header : Header) (next : Record) (e : ℕ) → RecordFits next → NumbersFit next →
        length next.sections.items ≡ header.machines →
        edge_number header (body_bytes next) e ≡ saved_or 0 (record_edges next) e }
{}
