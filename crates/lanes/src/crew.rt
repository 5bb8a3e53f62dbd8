//! Who runs the sections of a replay.

ghost use Rattle.std.specs.Prelude.{◌≡◌};
ghost use Rattle.desk_regs.specs.Desks.{IsLevel as IsLevelDesk};
ghost use Rattle.collector.specs.Collectors.{IsLevel, HasSameSeats, gathered_by};
ghost use Rattle.lanes.specs.Crews.{IsCrewOf, progress_of};
ghost use Rattle.lanes.specs.Working.{CrewMet};

use collector::Collector;
use desk_regs::Desk;
use hook_engine::{Engine, Pass};

/// A pass, from which lanes get theirs, and the desk and the collector that carry out commands.
#[derive(Drop)]
pub struct Crew {
    pub pass: Pass,
    pub desk: Desk,
    pub collector: Collector,
}

impl Crew {
    /// The pass learns the desk's journal and the collector's phase, and the collector what the pass added to
    /// apps.
    pub(crate) fn meet(&mut self, engine: &Engine)
        requires of { IsCrewOf engine.now self.old }
        requires level { IsLevelDesk self.old.desk }
        ensures met { CrewMet engine.now.sizes.calls (progress_of self.old) (progress_of self.new) }
        ensures of { IsCrewOf engine.now self.new }
        ensures desk { self.new.desk ≡ self.old.desk }
        ensures collector { HasSameSeats self.old.collector self.new.collector }
        ensures limits { self.new.desk.book.limits ≡ engine.now.sizes.regs }
    {
        // Their limits, which a level desk's book has as well, are the engine's.
        let _ = engine.regs();
        engine.meet(&mut self.pass, self.desk.writer(), self.collector.seat());
        engine.meet_apps(&mut self.pass, self.collector.apps());
    }
}
