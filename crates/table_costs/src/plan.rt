//! What is asked for.

ghost use Rattle.std.specs.Prelude.{◌≡◌, ◌≤◌};
ghost use Rattle.table_costs.specs.Limits.{most_rows};

use outside::ArgList;

/// What is done again and again.
#[derive(Clone, Copy, Debug, PartialEq, Eq)]
pub enum Subject {
    /// A packet is charged to a label, in a call of its own.
    Charges,
    /// A register is read.
    Reads,
    /// A packet is added to a total.
    Adds,
    /// An untagged packet is hooked: it is looked up, judged and counted.
    Hooks,
    /// No table is touched, which shows what the order of the calls costs by itself.
    Nothing,
}

impl Subject {
    fn of(word: &str) -> Option<Subject> {
        match word {
            "charges" => Some(Subject::Charges),
            "reads" => Some(Subject::Reads),
            "adds" => Some(Subject::Adds),
            "hooks" => Some(Subject::Hooks),
            "nothing" => Some(Subject::Nothing),
            _ => None,
        }
    }

    /// The word that asks for it.
    pub fn word(self) -> &'static str {
        match self {
            Subject::Charges => "charges",
            Subject::Reads => "reads",
            Subject::Adds => "adds",
            Subject::Hooks => "hooks",
            Subject::Nothing => "nothing",
        }
    }

    /// The most rows that its table can have.
    fn most_rows(self) -> u32
        ensures { result ≡ most_rows self }
    {
        match self {
            Subject::Charges | Subject::Hooks => 5_000,
            Subject::Adds => 65_536,
            Subject::Reads | Subject::Nothing => 262_144,
        }
    }
}

/// How the keys lie.
#[derive(Clone, Copy, Debug, PartialEq, Eq)]
pub enum Spread {
    /// One behind another, as numbers are that a system gives out.
    Near,
    /// All over the numbers.
    Far,
}

impl Spread {
    fn of(word: &str) -> Option<Spread> {
        match word {
            "near" => Some(Spread::Near),
            "far" => Some(Spread::Far),
            _ => None,
        }
    }

    /// The word that asks for it.
    pub fn word(self) -> &'static str {
        match self {
            Spread::Near => "near",
            Spread::Far => "far",
        }
    }
}

/// The most calls.
const MOST_CALLS: u64 = 100_000_000;

/// How many rows a table gets, how many keys are put into it, and how many calls go to them.
#[derive(Clone, Copy, Debug)]
pub struct Plan {
    pub subject: Subject,
    pub spread: Spread,
    pub rows: u32,
    pub keys: u32,
    pub calls: u64,
    ghost some_keys: { 1 ≤ keys },
    ghost room: { keys ≤ rows },
    ghost few_rows: { rows ≤ most_rows subject },
    ghost few_calls: { calls ≤ 100000000 },
}

impl Plan {
    /// The plan that the words ask for. None comes where they ask for none, or for one beyond a table's
    /// limits.
    pub fn of(words: &ArgList) -> Option<Plan> {
        let subject = Subject::of(words.get(0)?)?;
        let spread = Spread::of(words.get(1)?)?;
        let rows = words.get(2)?.parse::<u32>().ok()?;
        let keys = words.get(3)?.parse::<u32>().ok()?;
        let calls = words.get(4)?.parse::<u64>().ok()?;
        if keys < 1 || keys > rows || rows > subject.most_rows() || calls > MOST_CALLS {
            return None;
        }
        Some(Plan {
            subject,
            spread,
            rows,
            keys,
            calls,
        })
    }
}
