//! Which event of the machine each step on the table is. Each law is the contract of a function with nothing to do.

ghost use Rattle.std.specs.Prelude.{◌≡◌, ◌≢◌, ◌+◌, ◌*◌, ◌<◌, ◌≤◌, ℕ, List, true, false};
ghost use Rattle.acct_base.specs.declared.amount.Row.{Row};
ghost use Rattle.acct_base.specs.declared.charge.Job.{Job};
ghost use Rattle.grace_core.specs.declared.event.Event.TheVariants.{Enter, ClaimFirst, ClaimSecond, Add, Exit, Split, Join, Flip, LoadExits, TakeWord, Reopen};
ghost use Rattle.grace_core.specs.declared.state.CollectAt.TheVariants.{Resting, Waiting, Draining};
ghost use Rattle.grace_core.specs.declared.view.At.TheVariants.{Outside, Inside, Second, Adding};
ghost use Rattle.grace_core.specs.Machine.{IsValidJob, packets_column, bytes_column};
ghost use Rattle.grace_rows.specs.Collecting.{IsTaken};
ghost use Rattle.grace_rows.specs.declared.rule.Setup.{Setup};
ghost use Rattle.grace_rows.specs.declared.rule.Sight.{Sight};
ghost use Rattle.grace_rows.specs.EventSteps.{IsSeat, IsEvent, entering, leaving, row_word, claiming_first, claiming_second, adding, cutting, opening, joining, flipping, polling, taking, freeing};
ghost use Rattle.grace_rows.specs.Moments.{Moment};
ghost use Rattle.grace_rows.specs.Sights.{hook_of, collect_of, is_hook};
ghost use Rattle.grace_rows.specs.Trying.{at_turn};

/// Each step of a hook is its event.
pub fn steps_of_hooks_are_events()
    ensures enter { (key : Setup) (s : Moment) (id : ℕ) (x : Sight) →
        IsSeat key s id x → is_hook x ≡ true → (hook_of x).at ≡ Outside → 0 < (hook_of x).left →
        IsEvent key (Enter id) s (entering s id x) }
    ensures claim_first { (key : Setup) (s : Moment) (id phase charges turn : ℕ) (job : Job) (x : Sight) →
        IsSeat key s id x → is_hook x ≡ true → (hook_of x).at ≡ at_turn phase charges job turn → charges < 2 → IsValidJob job →
        IsEvent key (ClaimFirst id job) s (claiming_first key s phase charges job turn id x) }
    ensures claim_second { (key : Setup) (s : Moment) (id phase charges turn : ℕ) (job : Job) (x : Sight) →
        IsSeat key s id x → is_hook x ≡ true → (hook_of x).at ≡ Second phase charges job turn →
        IsEvent key (ClaimSecond id) s (claiming_second key s phase charges job turn id x) }
    ensures packets { (key : Setup) (s : Moment) (id phase charges row : ℕ) (job : Job) (x : Sight) →
        IsSeat key s id x → is_hook x ≡ true → (hook_of x).at ≡ Adding phase charges job row false →
        IsEvent key (Add id) s (adding s (row_word key phase row (packets_column job.dir)) job.packets id x) }
    ensures bytes { (key : Setup) (s : Moment) (id phase charges row : ℕ) (job : Job) (x : Sight) →
        IsSeat key s id x → is_hook x ≡ true → (hook_of x).at ≡ Adding phase charges job row true →
        IsEvent key (Add id) s (adding s (row_word key phase row (bytes_column job.dir)) job.bytes id x) }
    ensures exit { (key : Setup) (s : Moment) (id phase charges : ℕ) (x : Sight) →
        IsSeat key s id x → is_hook x ≡ true → (hook_of x).at ≡ Inside phase charges →
        IsEvent key (Exit id) s (leaving s phase id x) }
{}

/// A cut of a hook's seat, the first cut of the collector's, and a join of two seats are their events. The first
/// seat of a join may be the collector's, which then takes the other's calls and charges to the hook that it shows.
pub fn cuts_and_joins_are_events()
    ensures split { (key : Setup) (s : Moment) (id n : ℕ) (x : Sight) →
        IsSeat key s id x → is_hook x ≡ true → (hook_of x).at ≡ Outside → n ≤ (hook_of x).left →
        IsEvent key (Split id n) s (cutting s n id x) }
    ensures first_cut { (key : Setup) (s : Moment) (id : ℕ) (x : Sight) →
        IsSeat key s id x → is_hook x ≡ false → (hook_of x).at ≡ Outside →
        IsEvent key (Split id (hook_of x).left) s (opening s id x) }
    ensures join { (key : Setup) (s : Moment) (id other : ℕ) (x y : Sight) →
        IsSeat key s id x → (hook_of x).at ≡ Outside → IsSeat key s other y → is_hook y ≡ true → (hook_of y).at ≡ Outside → id ≢ other →
        IsEvent key (Join id other) s (joining s id x other y) }
{}

/// Each step of the collector is its event.
pub fn steps_of_the_collector_are_events()
    ensures flip { (key : Setup) (s : Moment) (x : Sight) →
        IsSeat key s 0 x → is_hook x ≡ false → (collect_of x).at ≡ Resting → (collect_of x).phase < 1024 →
        IsEvent key Flip s (flipping s x) }
    ensures poll { (key : Setup) (s : Moment) (old entered : ℕ) (x : Sight) →
        IsSeat key s 0 x → is_hook x ≡ false → (collect_of x).at ≡ Waiting entered → (collect_of x).phase ≡ old + 1 →
        IsEvent key LoadExits s (polling s old x) }
    ensures take { (key : Setup) (s : Moment) (old next : ℕ) (taken : List ℕ) (x : Sight) →
        IsSeat key s 0 x → is_hook x ≡ false → (collect_of x).at ≡ Draining next taken → (collect_of x).phase ≡ old + 1 → next < 6 * key.rows →
        IsEvent key TakeWord s (taking key s old next x) }
    ensures reopen { (key : Setup) (s : Moment) (old : ℕ) (taken : List ℕ) (rows : List Row) (x : Sight) →
        IsSeat key s 0 x → is_hook x ≡ false → (collect_of x).at ≡ Draining (6 * key.rows) taken → (collect_of x).phase ≡ old + 1 →
        IsTaken key.rows taken rows →
        IsEvent key Reopen s (freeing s old rows x) }
{}
