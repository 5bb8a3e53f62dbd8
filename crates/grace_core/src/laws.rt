//! What holds of the machine after any events. Each law is the contract of a function with nothing to do.

ghost use Rattle.std.specs.Prelude.{◌≡◌, ◌<◌, ◌≤◌, ◌^◌, ℕ, List, ◌∷◌, Some, slice_get};
ghost use Rattle.grace_core.specs.Good.{side, IsGood};
ghost use Rattle.grace_core.specs.Machine.{started, after, after_all, exits_at, old_phase};
ghost use Rattle.grace_core.specs.Phases.{NobodyInside, IsUsed, WaitsForNobody, other_side, IsOfHook};
ghost use Rattle.grace_core.specs.Rows.{Has};
ghost use Rattle.grace_core.specs.Sums.{charges_of};
ghost use Rattle.grace_core.specs.declared.event.Event.{Event};
ghost use Rattle.grace_core.specs.declared.state.State.{State};
ghost use Rattle.grace_core.specs.declared.state.CollectAt.TheVariants.{Waiting};
ghost use Rattle.grace_core.specs.declared.event.Event.TheVariants.{LoadExits};
ghost use Rattle.acct_base.specs.declared.amount.Snapshot.{Snapshot};
ghost use Rattle.acct_base.specs.declared.label.Label.{Label};
ghost use Rattle.acct_base.specs.Amounts.{IsValidLabel};
ghost use Rattle.acct_base.specs.Sums.{HoldsPhase};

/// After every list of events from the start, enabled or not, the state is good.
pub fn every_state_is_good()
    ensures { (rows calls : ℕ) (events : List Event) →
        1 ≤ rows → rows ≤ 5000 → 1 ≤ calls → calls ≤ 2 ^ 28 →
        IsGood (after_all (started rows calls) events) }
{}

/// Where a collector finds that all which entered the old phase have left it, nobody is inside that phase, and
/// whatever events follow, nobody is inside it again.
pub fn old_phase_is_left_for_good()
    ensures { (s : State) (entries : ℕ) (events : List Event) →
        IsGood s → s.collector.at ≡ Waiting entries → exits_at s.exits (old_phase s) ≡ entries →
        NobodyInside (old_phase s) (after_all s (LoadExits ∷ events)).hooks }
{}

/// While the collector drains or rests, no hook writes a word of the side that is not live.
pub fn hooks_leave_the_other_side()
    ensures { (s next : State) (event : Event) →
        IsGood s → WaitsForNobody s.collector.at → IsOfHook event → after s event ≡ Some next →
        other_side next ≡ other_side s }
{}

/// In each phase in use a label stands in one row.
pub fn a_label_has_one_row()
    ensures { (s : State) (phase : ℕ) (label : Label) (i j : ℕ) →
        IsGood s → IsUsed phase s.collector.phase s.collector.at → IsValidLabel label →
        i < s.rows → j < s.rows →
        Has (side s.rows s.words phase) i label → Has (side s.rows s.words phase) j label →
        i ≡ j }
{}

/// In a good state each snapshot is what the charges of its phase come to.
pub fn snapshots_hold_their_charges()
    ensures { (s : State) (n : ℕ) (snapshot : Snapshot) →
        IsGood s → slice_get s.snapshots n ≡ Some snapshot →
        HoldsPhase s.rows (charges_of s.hooks) n snapshot }
{}
