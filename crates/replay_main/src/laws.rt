//! Laws of the definitions. Each is the contract of a function with nothing to do.

ghost use Rattle.captures.specs.Calls.{Asked, IsAskedInRange};
ghost use Rattle.acct_plain.specs.Serial.{serial};
ghost use Rattle.dump_text.specs.Room.{AppsCoverDeletions};
ghost use Rattle.replay_main.specs.Bounds.{HonestSumsAreSmall};
ghost use Rattle.replay_main.specs.Generated.{GeneratedIsScript};
ghost use Rattle.replay_main.specs.Judgements.{ScriptHasNoFault, OneFault, ScriptIsReadOnce};
ghost use Rattle.replay_main.specs.Replays.{ReplayIsHonest, ReplayIsTold, ReplayIsSerial, ReplayCovers};

use acct_base::length_is_charged;
use captures::run_is_honest;

/// A text has one judgement. No fault decides on a script, one fault at most decides on any other text, and a script has
/// one header, one list of sections and one list of their calls.
pub fn one_judgement()
    ensures script { ScriptHasNoFault }
    ensures fault { OneFault }
    ensures reading { ScriptIsReadOnce }
{}

/// Each generated script that may be asked for is a script within all limits, and its sections have their calls, in
/// their ranges.
pub fn generated_is_a_script()
    ensures script { GeneratedIsScript }
{}

/// In an honest report each sum is below 2^48, where calls are in their ranges and no more than 1,048,576. Neither a
/// dump's sums nor its counts pass a word of 64 bits.
pub fn honest_sums_are_small()
    ensures { HonestSumsAreSmall }
{
    length_is_charged();
}

/// Where calls and commands are in their ranges, the walk's deletions record of no app more than its total.
pub fn serial_deletions_are_covered()
    ensures { (asked : Asked) → IsAskedInRange asked → AppsCoverDeletions (serial asked) }
{}

/// The report of a replay on an engine is honest, whatever the order in which lanes, desk and collector took their
/// steps. A tally is told of what the report says. Where no section's receipts depend on the order of steps, the
/// report is that of the replay on one thread.
pub fn replays_on_engines()
    ensures honest { ReplayIsHonest }
    ensures told { ReplayIsTold }
    ensures serial { ReplayIsSerial }
{
    run_is_honest();
}

/// Deletions of a replay on an engine record of no app more than its total.
pub fn replay_deletions_are_covered()
    ensures { ReplayCovers }
{}
