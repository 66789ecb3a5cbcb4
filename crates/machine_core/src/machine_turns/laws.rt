//! Laws about rows and works. Each is the contract of a function that does nothing.
ghost use Rattle.local_graph.specs.declared.works.Work.{Work};
ghost use Rattle.machine_core.specs.declared.machine_parts.cores.Core.{Core};
ghost use Rattle.machine_core.specs.machine_turns.Turns.{Setting, LocalView, IsOrderly, IsLocalOf, AreIn, HasEachRow, IsOut};

/// While each row of an own vertex is in, no work is out.
pub fn no_work_is_out_while_rows_are_in()
    ensures { (m : Core) (w : Work) → IsOrderly m → AreIn m.numbers.local → IsOut m w → ⊥ }
{}

/// What is a machine's part of a graph, with each row in, has each row with its links.
pub fn parts_have_each_row()
    ensures has { (st : Setting) (l : LocalView) → IsLocalOf st l → AreIn l → HasEachRow l }
    ensures are_in { (l : LocalView) → HasEachRow l → AreIn l }
{}
