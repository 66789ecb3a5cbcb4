//! Laws about what a machine keeps and tells, for every setting of a cluster. Each is the contract
//! of a function that does nothing.
ghost use Rattle.std.specs.Prelude.{◌≡◌, ℕ, true, length};
ghost use Rattle.std.specs.List.{All};
ghost use Rattle.gl_base.specs.declared.atoms.Lines.{Lines};
ghost use Rattle.gl_base.specs.declared.entries.Entry.{Entry};
ghost use Rattle.gl_base.specs.declared.numbers.MachineNo.{MachineNo};
ghost use Rattle.gl_base.specs.declared.numbers.Vertex.{Vertex};
ghost use Rattle.gl_base.specs.declared.scopes.ScopeId.{ScopeId};
ghost use Rattle.local_graph.specs.declared.outlines.Outline.{Outline};
ghost use Rattle.local_graph.specs.declared.works.Outcome.{Outcome};
ghost use Rattle.wire.specs.declared.wire_msgs.messages.Done.{Done};
ghost use Rattle.partition.specs.declared.machine_numbers.keeping.Numbers.{Numbers};
ghost use Rattle.partition.specs.machine_numbers.Views.{LocalView, TasksView, AreTasksOf, IsPlayedFrom, News, news_of, is_own, sides_at};
ghost use Rattle.partition.specs.machine_numbers.Steps.{HasLearned, HasTakenOut, HasUpdated, IsSideHere, MadeUpdate, TellsOf, made_of};
ghost use Rattle.partition.specs.machine_numbers.Settings.{Setting, IsLocalOf, Part, applied, updated, news_for, with_numbers, IsOutcomeOf, IsMadeOfWork, EdgesShared};

/// What a machine learns of an update elsewhere is the effect on its data, edges and tasks that the
/// cluster has of it, and its log stays.
pub fn news_are_applied()
    ensures { (st : Setting) (a : ℕ) (s : ScopeId) (news : News) (old new : Numbers) (part : Part) →
        HasLearned old new news →
        with_numbers new (applied st a s news (with_numbers old part)) ≡ applied st a s news
        (with_numbers old part) }
{}

/// What a machine keeps of an update is the effect on its data, edges, tasks and log that the
/// cluster has of it, for every setting whose program made it.
pub fn updates_are_made()
    ensures { (st : Setting) (s : ScopeId) (o : MadeUpdate) (entry : Entry) (old new : Numbers)
        (part : Part) → IsOutcomeOf st old o → HasUpdated old new o entry →
        with_numbers new (updated st old.local.me.0 s o.vertex.0 entry
        (with_numbers old part)) ≡ updated st old.local.me.0 s o.vertex.0 entry
        (with_numbers old part) }
{}

/// What is told to each other machine is what the cluster's effect tells it.
pub fn lists_are_the_news()
    ensures { (st : Setting) (to : MachineNo) (o : Outcome) (done : Done) (n : Numbers)
        (part : Part) → IsOutcomeOf st n (made_of o) → EdgesShared st o.work.vertex.0 → TellsOf n to o done →
        news_of done ≡ news_for st (with_numbers n part) o.work.vertex.0 to.0 }
{}

/// What a machine that played its lines owns has the places of its tasks, where there are as many
/// flags.
pub fn played_parts_have_their_tasks()
    ensures { (me : MachineNo) (lines : Lines) (outline : Outline) (l : LocalView) (t : TasksView) →
        IsPlayedFrom me lines outline l → length t.task ≡ length l.owned →
        AreTasksOf l t }
{}

/// The sides of an own vertex are here as `finish` asks, where what the machine holds is its part
/// of the graph.
pub fn sides_are_here()
    ensures { (st : Setting) (l : LocalView) (v : ℕ) → IsLocalOf st l → is_own l v ≡ true →
        All (IsSideHere l) (sides_at l v) }
{}

/// What a program makes of a work, as `Outcome::update` says, is what the setting's program makes
/// of the numbers as they stood when the work was taken.
pub fn works_have_the_numbers()
    ensures { (st : Setting) (old new : Numbers) (scope : ScopeId) (v : Vertex) (o : Outcome) →
        IsLocalOf st old.local → is_own old.local v.0 ≡ true →
        HasTakenOut old new scope v o.work → IsMadeOfWork st.program o →
        IsOutcomeOf st old (made_of o) }
{}
