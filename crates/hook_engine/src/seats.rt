//! How passes are split, joined, and meet the desk's seats.

ghost use Rattle.std.specs.Prelude.{◌≡◌, ◌≤◌, ℕ, [], length};
ghost use Rattle.acct_base.specs.Sums.{added};
ghost use Rattle.total_rows.specs.Seats.{known, greater};
ghost use Rattle.hook_engine.specs.Passes.{Split, Joined, Met, MetApps};
ghost use Rattle.hook_engine.specs.Tables.{knows};

use crate::engine::Engine;
use crate::pass::Pass;
use grace_rows::CollectSeat;
use reg_words::Writer;
use total_rows::TotalSeat;

impl Engine {
    /// A new pass with `n` of the pass's calls, none made, that knows all that the pass knows. It takes no memory
    /// and waits for nobody.
    pub fn split(&self, pass: &mut Pass, n: u64) -> Pass
        requires from { pass.old.tables ≡ self.now.tables }
        requires calls { n ≤ pass.old.has.left }
        ensures split { Split n pass.old.has pass.new.has result.has }
        ensures first { pass.new ≡ record pass.old { has = pass.new.has } }
        ensures other { result ≡ record { tables = self.now.tables; has = result.has; loads = 0; loaded = 0; notes = result.notes } }
        ensures knows { (uid : ℕ) → knows result uid ≡ knows pass.old uid }
    {
        let reader = self.regs.split(&mut pass.reader);
        let hook = self.paired.split(&mut pass.hook, n);
        let apps = self.apps.split(&mut pass.apps, n);
        let ifaces = self.ifaces.split(&mut pass.ifaces, n);
        pass.left -= n;
        Pass {
            reader,
            hook,
            apps,
            ifaces,
            left: n,
            made: 0,
        }
    }

    /// Takes another pass in: its calls, its lists, and what it knows. It takes no memory and waits for nobody.
    pub fn join(&self, pass: &mut Pass, other: Pass)
        requires from { pass.old.tables ≡ self.now.tables }
        requires other { other.tables ≡ self.now.tables }
        ensures from { pass.new.tables ≡ pass.old.tables }
        ensures joined { Joined pass.old.has other.has pass.new.has }
        ensures loads { (pass.new.loads ≡ pass.old.loads) × (pass.new.loaded ≡ pass.old.loaded) }
        ensures knows { (uid : ℕ) → knows pass.new uid ≡ greater (greater (knows pass.old uid) (knows other uid)) (added pass.new.has.apps uid) }
    {
        let Pass {
            reader,
            hook,
            apps,
            ifaces,
            left,
            made,
        } = other;
        self.regs.join(&mut pass.reader, reader);
        self.paired.join(&mut pass.hook, hook);
        self.apps.join(&mut pass.apps, apps);
        self.ifaces.join(&mut pass.ifaces, ifaces);
        pass.left += left;
        pass.made += made;
    }

    /// The pass learns the writer's whole journal and the collector's phase. All writes have to be published. It
    /// takes no memory and waits for nobody.
    pub fn meet(&self, pass: &mut Pass, writer: &mut Writer, collect: &mut CollectSeat)
        requires from { pass.old.tables ≡ self.now.tables }
        requires seats { (writer.old.origin ≡ self.now.tables.regs) × (collect.old.table ≡ self.now.tables.maps) }
        requires published { writer.old.front ≡ length writer.old.journal }
        ensures met { Met writer.old.journal collect.old.phase pass.old.has pass.new.has }
        ensures same { pass.new ≡ record pass.old { has = pass.new.has } }
        ensures writer { writer.new ≡ writer.old }
        ensures collector { collect.new ≡ collect.old }
    {
        self.regs.meet(&mut pass.reader, writer);
        self.paired.meet(&mut pass.hook, collect);
    }

    /// The pass and a seat of the app totals tell each other what they know: of each uid both know the greater
    /// of the two amounts afterwards. It takes no memory and waits for nobody.
    pub fn meet_apps(&self, pass: &mut Pass, apps: &mut TotalSeat)
        requires from { pass.old.tables ≡ self.now.tables }
        requires apps { apps.old.table ≡ self.now.tables.apps }
        ensures met { MetApps self.now.sizes.calls pass.old.has (known apps.old) (known apps.new) }
        ensures pass { pass.new ≡ record pass.old { notes = pass.new.notes } }
        ensures seat { apps.new ≡ record apps.old { notes = apps.new.notes } }
        ensures both { (uid : ℕ) → (knows pass.new uid ≡ greater (knows pass.old uid) (known apps.old uid)) × (known apps.new uid ≡ greater (knows pass.old uid) (known apps.old uid)) }
    {
        let note = self.apps.split(&mut pass.apps, 0);
        self.apps.join(apps, note);
        let back = self.apps.split(apps, 0);
        self.apps.join(&mut pass.apps, back);
    }
}
