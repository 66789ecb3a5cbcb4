//! Laws about what a machine holds that played its lines. Each is the contract of a function that
//! does nothing.
ghost use Rattle.std.specs.Prelude.{◌≡◌, ℕ, ◌<◌, List, length, slice_index_or};
ghost use Rattle.gl_base.specs.declared.atoms.GhostLine.{GhostLine};
ghost use Rattle.gl_base.specs.declared.atoms.Lines.{Lines};
ghost use Rattle.gl_base.specs.declared.atoms.VertexLine.{VertexLine};
ghost use Rattle.gl_base.specs.declared.numbers.MachineNo.{MachineNo};
ghost use Rattle.graph_core.specs.DataGraph.{size};
ghost use Rattle.graph_core.specs.Halves.{halves_of};
ghost use Rattle.graph_atoms.specs.atom_cut.Atoms.{AreAtoms};
ghost use Rattle.local_graph.specs.declared.outlines.Outline.{Outline};
ghost use Rattle.partition.specs.local_parts.Parts.{Setting, IsSetting, LocalView, IsMadeOf, IsPlayedFrom, AreLinesOf, AreVerticesOf, graph_halves, owner_numbers, CanBePlayed, IsLocalOf, AreIn, ShareEdges};

/// Where a graph is cut so that each vertex is in the atom with the number of its owner, each
/// machine's atom is its lines.
pub fn atoms_by_owner_are_lines()
    ensures { (st : Setting) (all : List Lines) (outline : Outline) →
        AreAtoms st.graph (owner_numbers st) st.machines all →
        outline.machines ≡ st.machines → outline.vertices ≡ size st.graph →
        outline.edges ≡ length st.graph.edges → outline.directed ≡ st.graph.directed →
        (a : ℕ) (d : Lines) → a < st.machines → AreLinesOf st a (slice_index_or all a d) outline }
{}

/// The lines of a machine can be played.
pub fn lines_can_be_played()
    ensures { (st : Setting) (me : ℕ) (lines : Lines) (outline : Outline) →
        IsSetting st → AreLinesOf st me lines outline → CanBePlayed lines outline }
{}

/// What is made of a machine's lines is its part of the graph, for every setting of which the lines
/// are a part, and each row is in.
pub fn played_parts_are_local()
    ensures local { (st : Setting) (me : MachineNo) (lines : Lines)
        (outline : Outline) (l : LocalView) →
        IsSetting st → AreLinesOf st me.0 lines outline →
        IsPlayedFrom me lines outline l → IsLocalOf st l }
    ensures rows { (st : Setting) (me : MachineNo) (lines : Lines)
        (outline : Outline) (l : LocalView) →
        IsSetting st → AreLinesOf st me.0 lines outline →
        IsPlayedFrom me lines outline l → AreIn l }
{}

/// What is made of a graph and of the lines of a machine's vertices and ghosts is its part of the
/// graph, and each row is in.
pub fn parts_of_graphs_are_local()
    ensures local { (st : Setting) (me : MachineNo) (own : List VertexLine)
        (ghosts : List GhostLine) (l : LocalView) →
        IsSetting st → AreVerticesOf st me.0 own ghosts →
        IsMadeOf me own ghosts (graph_halves st.graph) st.machines (length st.graph.edges) l →
        IsLocalOf st l }
    ensures rows { (st : Setting) (me : MachineNo) (own : List VertexLine)
        (ghosts : List GhostLine) (l : LocalView) →
        IsSetting st → AreVerticesOf st me.0 own ghosts →
        IsMadeOf me own ghosts (graph_halves st.graph) st.machines (length st.graph.edges) l →
        AreIn l }
{}

/// The edge of each half-edge at a vertex is shared with the owner of the other end alone, and no
/// two have one edge.
pub fn rows_share_their_edges()
    ensures { (st : Setting) (v : ℕ) → IsSetting st → ShareEdges st v (halves_of st.graph v) }
{}
