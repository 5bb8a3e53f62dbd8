//! Sums by key on an ordered map. An add looks its key up once, where the key is there.

ghost use Rattle.std.specs.Prelude.{◌≡◌, [], map, None, Some, true, is_some, IfOk, OnErr};
ghost use Rattle.std.specs.List.Sorted.{IsStrictlySortedBy};
ghost use Rattle.acct_base.specs.Amounts.{plus, HasRoom, label_cmp};
ghost use Rattle.acct_base.specs.Receipts.{is_landed};
ghost use Rattle.acct_plain.specs.Ledgers.{Adds, Sets, amount_of, find, row_of};

use acct_base::{Amount, Label, Mark, Row, RowList};
use std::alloc::{AllocError, Global};
use std::collections::BTreeMap;
use std::marker::Model;

/// What an add did: whether it landed, and what stood at its key before.
#[derive(Clone, Copy, Debug)]
pub struct Added {
    pub mark: Mark,
    pub before: Option<Amount>,
}

/// Sums by key. Contracts see the list of keys with their sums, in the keys' order.
#[derive(Debug, Drop)]
pub struct Ledger<K: Ord> {
    entries: BTreeMap<K, Amount>,
}

impl<K: Ord> Model for Ledger<K> {
    ghost use Rattle.std.specs.Prelude.{List};
    ghost use Rattle.acct_base.specs.declared.amount.Amount.{Amount as AmountOf};

    ghost Value = { List (K × AmountOf) };

    ghost view = { λ l. l.entries.entries };
}

impl<K: Ord + Copy> Ledger<K> {
    /// A ledger without keys.
    pub fn new(alloc: Global) -> Self
        ensures { result ≡ [] }
    {
        Ledger {
            entries: BTreeMap::new(alloc),
        }
    }

    /// Adds an amount at a key. It is full where the key is new and there are as many keys as the limit.
    /// Where memory is wanting the ledger stays as it was.
    // Each packet makes two adds, and what they answer is looked at at once.
    #[inline(always)]
    pub fn add(&mut self, limit: u32, key: K, more: &Amount) -> Result<Added, AllocError>
        requires room { HasRoom (plus (amount_of K.cmp self.old key) more.now) }
        ensures ok { IfOk result (λ added. Adds K.cmp self.old self.new limit key more.now (is_landed added.mark)) }
        ensures before { IfOk result (λ added. added.before ≡ find K.cmp self.old key) }
        ensures err { OnErr result (self.new ≡ self.old) }
        ensures ordered { IsStrictlySortedBy K.cmp (map (λ e. e.0) self.old) }
    {
        match self.entries.get_mut(&key) {
            Some(amount) => {
                let before = *amount;
                *amount = before.plus(more);
                Ok(Added {
                    mark: Mark::Landed,
                    before: Some(before),
                })
            }
            None => self.add_new(limit, key, more),
        }
    }

    // Adds an amount at a key that is not there.
    fn add_new(&mut self, limit: u32, key: K, more: &Amount) -> Result<Added, AllocError>
        requires absent { find K.cmp self.old key ≡ None }
        ensures ok { IfOk result (λ added. Adds K.cmp self.old self.new limit key more.now (is_landed added.mark)) }
        ensures before { IfOk result (λ added. added.before ≡ find K.cmp self.old key) }
        ensures err { OnErr result (self.new ≡ self.old) }
    {
        if self.entries.len() >= limit as usize {
            return Ok(Added {
                mark: Mark::Full,
                before: None,
            });
        }
        self.entries.insert(key, *more)?;
        Ok(Added {
            mark: Mark::Landed,
            before: None,
        })
    }

    /// Puts an amount at a key, and gives what stood there. Where memory is wanting the ledger stays as it was.
    pub fn put(&mut self, key: K, amount: Amount) -> Result<Option<Amount>, AllocError>
        ensures ok { IfOk result (λ before. Sets K.cmp self.old self.new key (Some amount)) }
        ensures before { IfOk result (λ before. before ≡ find K.cmp self.old key) }
        ensures err { OnErr result (self.new ≡ self.old) }
        ensures ordered { IsStrictlySortedBy K.cmp (map (λ e. e.0) self.old) }
    {
        let before = self.entries.insert(key, amount)?;
        Ok(before)
    }

    /// Puts an amount at a key that is there, or takes the key out. Takes no memory.
    pub fn set(&mut self, key: K, amount: Option<Amount>)
        requires there { is_some amount ≡ true → is_some (find K.cmp self.old key) ≡ true }
        ensures sets { Sets K.cmp self.old self.new key amount }
        ensures ordered { IsStrictlySortedBy K.cmp (map (λ e. e.0) self.new) }
    {
        match amount {
            None => {
                self.entries.remove(&key);
            }
            Some(amount) => {
                // A key that is there takes no memory.
                let _ = self.entries.insert(key, amount);
            }
        }
    }

    /// The amount at a key, or zero.
    pub fn get(&self, key: K) -> Amount
        ensures { result ≡ amount_of K.cmp self.now key }
    {
        match self.entries.get(&key) {
            None => Amount::zero(),
            Some(amount) => *amount,
        }
    }

    /// All keys with their amounts, ascending.
    pub fn pairs(&self, alloc: Global) -> Result<Vec<(K, Amount)>, AllocError>
        ensures pairs { IfOk result (λ pairs. pairs.items ≡ self.now) }
        ensures ordered { IsStrictlySortedBy K.cmp (map (λ e. e.0) self.now) }
    {
        let pairs: Vec<(K, Amount)> = self
            .entries
            .iter()
            .map(|(key, amount)| (*key, *amount))
            .collect(alloc)?;
        Ok(pairs)
    }
}

impl Ledger<Label> {
    /// All labels with their amounts as rows, ascending by label.
    pub fn rows(&self, alloc: Global) -> Result<RowList, AllocError>
        ensures rows { IfOk result (λ rows. rows ≡ map row_of self.now) }
        ensures ordered { IsStrictlySortedBy label_cmp (map (λ e. e.0) self.now) }
    {
        let mut rows = Vec::with_capacity(alloc, self.entries.len())?;
        for (label, amount) in &self.entries {
            rows.push(Row {
                label: *label,
                amount: *amount,
            })?;
        }
        Ok(RowList::from_vec(rows))
    }
}
