//! Laws about merged entries. Each is the contract of a function that does nothing.
ghost use Rattle.std.specs.Prelude.{◌≡◌, ℕ, List};
ghost use Rattle.std.specs.List.{AllByRecursion};
ghost use Rattle.gl_base.specs.declared.entries.Entry.{Entry};
ghost use Rattle.cluster_laws.specs.merged_logs.Merges.{AreUpdatesFrom, IsByMachineBelow, IsMerge, IsPermutation, RiseByTicket, all_logged, logs_of};

/// There is one order by ticket of entries with different tickets, and that is their merge.
pub fn merges_are_one()
    ensures { (entries merged order : List Entry) → IsMerge entries merged →
        IsPermutation entries order → RiseByTicket order → merged ≡ order }
{}

/// The logs of all machines are merged to the order whose parts they are.
pub fn logs_merge_to_their_order()
    ensures order { (machines : ℕ) (order merged : List Entry) → RiseByTicket order →
        AllByRecursion (IsByMachineBelow machines) order →
        IsMerge (all_logged (logs_of machines order)) merged → merged ≡ order }
    ensures updates { (next : ℕ) (order : List Entry) →
        AreUpdatesFrom next order → RiseByTicket order }
{}
