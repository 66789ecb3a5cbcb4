//! Laws about good stores. Each is the contract of a function that does nothing.
ghost use Rattle.std.specs.Prelude.{◌≡◌, ℕ, List, [], length};
ghost use Rattle.gl_base.specs.declared.snapshots.Record.{Record};
ghost use Rattle.store.specs.declared.store_format.header.Header.{Header};
ghost use Rattle.recovery.specs.Orders.{Shared};
ghost use Rattle.recovery.specs.Journals.{stored_in, IsBeforeOrAfter, body_bytes, RecordFits, NumbersFit};
ghost use Rattle.recovery.specs.GoodStores.{IsGoodStore, GoesBehind, GoesWith};

/// A store without snapshots is good. Whatever a crash leaves of a good store to which a record is
/// added that goes with it, that is a good store. The numbers of a record that a program has fit
/// their fields.
pub fn append_preserves_validity()
    ensures none { (shared : Shared) (header : Header) → IsGoodStore shared header [] }
    ensures records { (shared : Shared) (header : Header) (bodies : List (List ℕ))
        (next : Record) (image : List ℕ) →
        IsGoodStore shared header bodies → RecordFits next → NumbersFit next →
        length next.sections.items ≡ header.machines →
        GoesWith shared bodies next → IsBeforeOrAfter header bodies (body_bytes next) image →
        IsGoodStore shared header (stored_in header image) }
    ensures bodies { (shared : Shared) (header : Header)
        (bodies : List (List ℕ)) (body image : List ℕ) →
        IsGoodStore shared header bodies → GoesBehind shared header bodies body →
        IsBeforeOrAfter header bodies body image →
        IsGoodStore shared header (stored_in header image) }
{}
