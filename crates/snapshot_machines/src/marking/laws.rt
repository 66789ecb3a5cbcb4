//! Laws of the cluster's effects at a machine that keeps something for snapshots. Each is the
//! contract of a function that does nothing.
ghost use Rattle.std.specs.Prelude.{◌≡◌, ◌||◌, false, ℕ, List};
ghost use Rattle.gl_base.specs.declared.entries.Entry.{Entry};
ghost use Rattle.gl_base.specs.declared.scopes.ScopeId.{ScopeId};
ghost use Rattle.snapshot_machines.specs.marking.Apart.{Ask, News, Part, Ready, Setting, SnapView, admitted, applied, begins, granted, learns, received, updated, with_snaps};

/// How scopes are admitted, take their locks and make their updates doesn't depend on what the
/// machine keeps for snapshots, and leaves that as it is.
pub fn scopes_go_apart_from_snapshots()
    ensures admitted { (st : Setting) (a v : ℕ) (w : SnapView) (part : Part) →
        admitted st a v (with_snaps w part) ≡ with_snaps w (admitted st a v part) }
    ensures granted { (st : Setting) (a x : ℕ) (w : SnapView) (part : Part) →
        granted st a x (with_snaps w part) ≡ with_snaps w (granted st a x part) }
    ensures asked { (st : Setting) (a v : ℕ) (s : ScopeId) (rest : List ℕ)
        (w : SnapView) (part : Part) →
        received st a (Ask s v rest) (with_snaps w part) ≡ with_snaps w
        (received st a (Ask s v rest) part) }
    ensures ready { (st : Setting) (a : ℕ) (s : ScopeId) (w : SnapView) (part : Part) →
        received st a (Ready s) (with_snaps w part) ≡ with_snaps w (received st a (Ready s) part) }
    ensures updated { (st : Setting) (a v : ℕ) (s : ScopeId) (entry : Entry)
        (w : SnapView) (part : Part) →
        updated st a s v entry (with_snaps w part) ≡ with_snaps w (updated st a s v entry part) }
{}

/// News of a snapshot update come in three steps: the snapshot begins, the rest is learned as of
/// any update, and then vertices become pending.
pub fn news_come_in_steps()
    ensures { (st : Setting) (a : ℕ) (s : ScopeId) (news : News) (part : Part) →
        applied st a s news part ≡ (let learned = learns s (record news {
          pends = λ u. false;
          number = 0;
        }) (begins st a news.number part) in
        record learned { pending = λ u. news.pends u || learned.pending u }) }
{}
