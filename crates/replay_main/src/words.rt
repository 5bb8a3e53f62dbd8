//! What the words ask for. They are read by hand, by one table.

ghost use Rattle.std.specs.Prelude.{◌≡◌, ◌≢◌, ◌↔◌, ℕ, [], ◌∷◌, IsTrue, IfSome, IfNone, decimal};
ghost use Rattle.replay_main.specs.Words.{AreRounds, AskFor, AreNoForm};

use itoa::Buffer;
use outside::ArgList;

/// The word that asks for the receipts.
const RECEIPTS: &str = "--receipts";

/// How many rounds of the generated script may be asked for.
const MOST_ROUNDS: u32 = 1_000;

/// What a run is asked to do.
#[derive(Clone, Copy, Debug, PartialEq, Eq)]
pub enum Form {
    /// To replay the script and print the dump.
    Replay { receipts: bool },
    /// The same on one thread, in one order.
    Plain { receipts: bool },
    /// To judge the script and print its counts.
    Check,
    /// To print the generated script of so many rounds, from 1 to 1,000.
    Gen { rounds: u32 },
    /// To replay it and print a summary.
    Bulk { rounds: u32 },
}

/// Whether there is one word, and it is this one.
fn is_one(words: &ArgList, word: &str) -> bool
    ensures { IsTrue result ↔ (words.now ≡ word.now ∷ []) }
{
    match words.get(0) {
        None => false,
        Some(first) => words.len() == 1 && first == word,
    }
}

/// Whether there are two words, and they are these.
fn are_two(words: &ArgList, word: &str, other: &str) -> bool
    ensures { IsTrue result ↔ (words.now ≡ word.now ∷ other.now ∷ []) }
{
    if words.len() != 2 {
        return false;
    }
    match words.get(0) {
        None => false,
        Some(first) => match words.get(1) {
            None => false,
            Some(second) => first == word && second == other,
        },
    }
}

/// Whether so many rounds of the generated script may be asked for.
fn are_rounds(rounds: u32) -> bool
    ensures { IsTrue result ↔ AreRounds rounds }
{
    rounds >= 1 && rounds <= MOST_ROUNDS
}

/// The number of rounds that a word is: from 1 to 1,000, in decimal without a leading zero.
fn rounds_of(word: &str) -> Option<u32>
    ensures some { IfSome result (λ rounds. AreRounds rounds × (word.now ≡ decimal rounds)) }
    ensures none { IfNone result ((rounds : ℕ) → AreRounds rounds → word.now ≢ decimal rounds) }
{
    let Ok(rounds) = word.parse::<u32>() else {
        return None;
    };
    if !are_rounds(rounds) {
        return None;
    }
    // A number can be read from other spellings too, as `+7` and `007`. The word has to be the printed one.
    let mut digits = Buffer::new();
    if digits.format(rounds) == word {
        Some(rounds)
    } else {
        None
    }
}

/// The number of rounds behind a word, where there are these two words alone.
fn rounds_behind(words: &ArgList, word: &str) -> Option<u32>
    ensures some { IfSome result (λ rounds. AreRounds rounds × (words.now ≡ word.now ∷ decimal rounds ∷ [])) }
    ensures none { IfNone result ((rounds : ℕ) → AreRounds rounds → words.now ≢ word.now ∷ decimal rounds ∷ []) }
{
    let number = words.get(1)?;
    let rounds = rounds_of(number)?;
    if are_two(words, word, number) {
        Some(rounds)
    } else {
        None
    }
}

/// The form that the words ask for; None exactly where they ask for none.
pub fn form_of(words: &ArgList) -> Option<Form>
    ensures form { IfSome result (AskFor words.now) }
    ensures none { IfNone result (AreNoForm words.now) }
{
    if is_one(words, "replay") {
        return Some(Form::Replay { receipts: false });
    }
    if are_two(words, "replay", RECEIPTS) {
        return Some(Form::Replay { receipts: true });
    }
    if is_one(words, "plain") {
        return Some(Form::Plain { receipts: false });
    }
    if are_two(words, "plain", RECEIPTS) {
        return Some(Form::Plain { receipts: true });
    }
    if is_one(words, "check") {
        return Some(Form::Check);
    }
    if let Some(rounds) = rounds_behind(words, "gen") {
        return Some(Form::Gen { rounds });
    }
    if let Some(rounds) = rounds_behind(words, "bulk") {
        return Some(Form::Bulk { rounds });
    }
    None
}
