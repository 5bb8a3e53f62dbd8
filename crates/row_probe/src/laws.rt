//! Laws of keys and places. Each is the contract of a function with nothing to do.

ghost use Rattle.std.specs.Prelude.{◌≡◌, ◌<◌, ◌+◌, ℕ};
ghost use Rattle.acct_base.specs.Amounts.{IsValidLabel};
ghost use Rattle.acct_base.specs.declared.label.Label.{Label};
ghost use Rattle.row_probe.specs.Keys.{pack1, pack2, unpack, ArePair};
ghost use Rattle.row_probe.specs.Places.{place, next_place};

/// A valid label's words unpack to the label, and whatever unpacks to a label is that label's words.
pub fn labels_pack_one_to_one()
    ensures back { (label : Label) → IsValidLabel label → unpack (pack1 label) (pack2 label) ≡ Some label }
    ensures only { (k1 k2 : ℕ) (label : Label) → unpack k1 k2 ≡ Some label → ArePair k1 k2 label }
{}

/// The turns below the number of rows give each place of the table once, one behind another.
pub fn turns_give_each_place_once()
    ensures within { (k1 k2 turn rows : ℕ) → turn < rows → place k1 k2 turn rows < rows }
    ensures distinct { (k1 k2 turn other rows : ℕ) → turn < rows → other < rows → place k1 k2 turn rows ≡ place k1 k2 other rows → turn ≡ other }
    ensures every { (k1 k2 i rows : ℕ) → i < rows → (turn : ℕ) × (turn < rows) × (place k1 k2 turn rows ≡ i) }
    ensures next { (k1 k2 turn rows : ℕ) → 0 < rows → place k1 k2 (turn + 1) rows ≡ next_place (place k1 k2 turn rows) rows }
{}
