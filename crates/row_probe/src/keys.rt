//! A label as two words that are never 0, so that an atomic word of 0 is a free one.

ghost use Rattle.std.specs.Prelude.{◌≡◌, ◌≢◌, IfNone, IfSome};
ghost use Rattle.acct_base.specs.Amounts.{IsValidLabel};
ghost use Rattle.row_probe.specs.Keys as keys;
ghost use Rattle.row_probe.specs.Keys.{ArePair};
ghost use Rattle.acct_base.specs.declared.label.Label as labels;

use acct_base::Label;

/// How far the uid stands above the tag.
const UPPER: u64 = 4294967296;

/// The greatest second word: interface 16,777,215 and counter set 1.
const MOST_SECOND: u64 = 33554431;

/// A label's first word: its uid plus 1 above its tag. This project's own encoding.
pub fn pack1(label: &Label) -> u64
    requires { IsValidLabel label.now }
    ensures value { result ≡ keys.pack1 label.now }
    ensures taken { result ≢ 0 }
{
    (u64::from(label.uid) + 1) * UPPER + u64::from(label.tag)
}

/// A label's second word: its interface above its counter set. This project's own encoding.
pub fn pack2(label: &Label) -> u64
    requires { IsValidLabel label.now }
    ensures value { result ≡ keys.pack2 label.now }
    ensures taken { result ≢ 0 }
{
    u64::from(label.iface) * 2 + u64::from(label.set)
}

/// Whether the words are in the ranges of labels' words.
fn holds_label(k1: u64, k2: u64) -> bool
    ensures { result ≡ keys.holds_label k1 k2 }
{
    k1 >= UPPER && k2 >= 2 && k2 <= MOST_SECOND
}

/// The label whose two words these are. None comes exactly where no valid label has them.
#[tactic(auto, unfolding(crate::specs::Keys::unpack))]
pub fn unpack(k1: u64, k2: u64) -> Option<Label>
    ensures value { result ≡ keys.unpack k1 k2 }
    ensures some { IfSome result (ArePair k1 k2) }
    ensures none { IfNone result ((label : labels.Label) → ¬ ArePair k1 k2 label) }
{
    if !holds_label(k1, k2) {
        return None;
    }
    Some(Label {
        uid: (k1 / UPPER - 1) as u32,
        tag: (k1 % UPPER) as u32,
        set: (k2 % 2) as u8,
        iface: (k2 / 2) as u32,
    })
}
