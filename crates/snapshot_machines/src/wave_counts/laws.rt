//! Laws about what a machine counts, for every setting of a cluster. Each is the contract of a
//! function that does nothing.
ghost use Rattle.std.specs.Prelude.{◌≡◌, ◌+◌, ◌<◌, ◌||◌, ◌++◌, ◌∷◌, ℕ, Bool, List, Option, Some, true, is_some, length, suc};
ghost use Rattle.snapshot_machines.specs.wave_counts.Counts.{MayTellCounts, CountsView, HasAnsweredWave, HasPutOut, IsCountOf, Machine, Message, Part, Setting, gained, goes_back, hands, is_done, is_idle, none_counted, one_more, prompt, answer_reports, takes_call, waiting_in, Wave};
ghost use Rattle.snapshot_machines.specs.wave_counts.Idle.{AreTasksAndScopesOf, HasNothingToDo, PipeView, TasksView};
ghost use Rattle.snapshot_machines.specs.declared.wave_counts.answers.WaveAnswer.{WaveAnswer};
ghost use Rattle.seq_run.specs.States.{GraphState};

/// What a machine counts follows the cluster's events: messages that are put out, one that leaves
/// an outbox, one that is received, a wave that comes, and a recovery.
pub fn counts_follow_events()
    ensures put_out { (st : Setting) (w : CountsView) (m : Machine) (part : Part) →
        IsCountOf st w m → HasPutOut m.part part →
        IsCountOf st w (record m { part = part; sent = m.sent + gained st m.part part }) }
    ensures sent { (st : Setting) (w : CountsView) (m : Machine) (q : ℕ) (message : Message)
        (behind : List Message) →
        IsCountOf st w m → q < st.machines → m.part.out q ≡ message ∷ behind →
        IsCountOf st (record w { sent = one_more w.sent }) (hands q behind m) }
    ensures received { (st : Setting) (w : CountsView) (m : Machine) → IsCountOf st w m →
        IsCountOf st (record w { received = one_more w.received })
        (record m { received = suc m.received }) }
    ensures held { (st : Setting) (a wave : ℕ) (w : CountsView) (m : Machine) → IsCountOf st w m →
        IsCountOf st (record w { held = Some wave }) (takes_call st a (Wave wave) m) }
    ensures begun { (st : Setting) (numbers : GraphState) (base a : ℕ) (m : Machine) →
        IsCountOf st none_counted (goes_back st numbers base a m) }
{}

/// The answer is what the cluster's machine puts out for the coordinator, at once with locks, and
/// with colours as soon as its share of the step is done: where it answers it holds no wave any
/// more, and admits nothing more in this step.
pub fn answers_are_prompt()
    ensures { (st : Setting) (a sent updates : ℕ) (idle : Bool) (old new : CountsView)
        (answer : Option WaveAnswer) (m : Machine) →
        IsCountOf st old m → MayTellCounts old (waiting_in st m.part) →
        sent ≡ old.sent + waiting_in st m.part → updates ≡ length m.part.log →
        idle ≡ is_idle st m.part →
        HasAnsweredWave old new (is_done st.engine st a m) sent updates idle answer →
        (prompt st a m ≡ record m {
          part = record m.part { closed = m.part.closed || is_some answer };
          held = new.held;
          out = m.out ++ answer_reports answer;
        })
        × IsCountOf st new (prompt st a m) }
{}

/// Where these are a machine's tasks and scopes, it is idle exactly where it is at rest.
pub fn machines_at_rest_are_idle()
    ensures { (st : Setting) (part : Part) (tasks : TasksView) (pipe : PipeView) →
        AreTasksAndScopesOf st part tasks pipe →
        (HasNothingToDo tasks pipe → is_idle st part ≡ true) ×
        (is_idle st part ≡ true → HasNothingToDo tasks pipe) }
{}
