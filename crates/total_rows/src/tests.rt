//! The calls in order, two threads that add to the same keys, and callers whose contracts follow from those of
//! the calls alone.

ghost use Rattle.std.specs.Prelude.{◌≡◌, ◌≤◌, ℕ, [], true};
ghost use Rattle.acct_base.specs.Amounts.{IsAtMost};
ghost use Rattle.acct_base.specs.Landings.{is_row};
ghost use Rattle.acct_base.specs.Sums.{added};
ghost use Rattle.total_rows.specs.Seats.{IsSole, KnowsAll, known, greater};

use crate::{Landed, TotalRoom, TotalSeat, Totals};
use acct_base::{Amount, Dir};
use std::test::Fail;
use std::thread;

#[test]
fn one_row_holds_one_key(rt: HostRuntime) -> Result<(), Fail> {
    let (totals, mut seat) = Totals::new(rt.alloc(), 1, 3)?;
    assert_eq!(rt;
        totals.add(&mut seat, 7, Dir::Ingress, 1, 60),
        Landed::Row(0)
    );
    assert_eq!(rt; totals.add(&mut seat, 8, Dir::Ingress, 1, 60), Landed::Full);
    let seven = Amount::counted(Dir::Ingress, 1, 60);
    assert_eq!(rt; totals.read(&mut seat, 7), seven);
    assert_eq!(rt; totals.read(&mut seat, 8), Amount::zero());
    assert_eq!(rt; (seat.left(), seat.made()), (1, 2));
    let room = TotalRoom::new(rt.alloc(), 1)?;
    assert_eq!(rt; room.rows(), 1);
    match totals.close(seat, room) {
        Err(_) => assert!(rt; false),
        Ok(list) => assert_eq!(rt; list.as_slice(), [(7, seven)].as_slice()),
    }
    Ok(())
}

#[test]
fn a_seat_that_lacks_calls_closes_nothing(rt: HostRuntime) -> Result<(), Fail> {
    let (totals, mut seat) = Totals::new(rt.alloc(), 2, 3)?;
    let other = totals.split(&mut seat, 2);
    let room = TotalRoom::new(rt.alloc(), 2)?;
    match totals.close(seat, room) {
        Ok(_) => assert!(rt; false),
        Err(unclosed) => assert_eq!(rt; (unclosed.missing, other.left()), (2, 2)),
    }
    Ok(())
}

const KEYS: u32 = 64;

// Adds once to each key, and says how often that landed.
fn add_to_all(totals: &Totals, mut seat: TotalSeat) -> (TotalSeat, u32)
    requires { seat.table ≡ totals.now.table }
    ensures { result.0.table ≡ totals.now.table }
{
    let mut rows = 0;
    for key in 0..KEYS {
        if seat.left() == 0 {
            break;
        }
        if let Landed::Row(_) = totals.add(&mut seat, key, Dir::Egress, 1, 60) {
            rows += 1;
        }
    }
    (seat, rows)
}

#[test]
fn two_threads_lose_no_addition(rt: HostRuntime) -> Result<(), Fail> {
    let (totals, mut first) = Totals::new(rt.alloc(), KEYS, 128)?;
    let second = totals.split(&mut first, 64);
    let ((mut first, x), (second, y)) = thread::join(
        &rt,
        || add_to_all(&totals, first),
        || add_to_all(&totals, second),
    );
    assert_eq!(rt; (x, y), (KEYS, KEYS));
    totals.join(&mut first, second);
    let both = Amount::counted(Dir::Egress, 2, 120);
    assert_eq!(rt; totals.read(&mut first, 63), both);
    let room = TotalRoom::new(rt.alloc(), KEYS)?;
    match totals.close(first, room) {
        Err(_) => assert!(rt; false),
        Ok(list) => {
            assert_eq!(rt; list.len(), 64);
            assert!(rt; list.as_slice().iter().all(|total| total.1 == both));
        }
    }
    Ok(())
}

// Three keys, and two rows.
fn add_to_three(totals: &Totals, seat: &mut TotalSeat) -> (Landed, Landed, Landed)
    requires from { seat.old.table ≡ totals.now.table }
    requires sole { IsSole totals.now seat.old }
    requires fresh { seat.old.adds ≡ [] }
    requires left { 3 ≤ seat.old.left }
    requires rows { totals.now.rows ≡ 2 }
    ensures first { is_row result.0 ≡ true }
    ensures second { is_row result.1 ≡ true }
    ensures third { result.2 ≡ Landed.Full }
    ensures from { seat.new.table ≡ totals.now.table }
{
    let first = totals.add(seat, 10, Dir::Ingress, 1, 60);
    let second = totals.add(seat, 5, Dir::Egress, 2, 70);
    let third = totals.add(seat, 7, Dir::Ingress, 1, 60);
    (first, second, third)
}

#[test]
fn a_third_key_finds_no_row_of_two(rt: HostRuntime) -> Result<(), Fail> {
    let (totals, mut seat) = Totals::new(rt.alloc(), 2, 3)?;
    let (_, _, third) = add_to_three(&totals, &mut seat);
    assert_eq!(rt; third, Landed::Full);
    let room = TotalRoom::new(rt.alloc(), 2)?;
    let five = (5, Amount::counted(Dir::Egress, 2, 70));
    let ten = (10, Amount::counted(Dir::Ingress, 1, 60));
    match totals.close(seat, room) {
        Err(_) => assert!(rt; false),
        Ok(list) => assert_eq!(rt; list.as_slice(), [five, ten].as_slice()),
    }
    Ok(())
}

// One key twice, and another one.
fn add_twice(totals: &Totals, seat: &mut TotalSeat) -> (Landed, Landed, Landed)
    requires from { seat.old.table ≡ totals.now.table }
    requires left { 3 ≤ seat.old.left }
    ensures same { is_row result.0 ≡ true → is_row result.1 ≡ true → result.0 ≡ result.1 }
    ensures other { is_row result.0 ≡ true → is_row result.2 ≡ true → result.0 ≡ result.2 → ⊥ }
{
    let first = totals.add(seat, 10, Dir::Ingress, 1, 60);
    let second = totals.add(seat, 10, Dir::Egress, 2, 70);
    let third = totals.add(seat, 7, Dir::Ingress, 1, 60);
    (first, second, third)
}

#[test]
fn a_key_keeps_its_row(rt: HostRuntime) -> Result<(), Fail> {
    let (totals, mut seat) = Totals::new(rt.alloc(), 16, 3)?;
    let (first, second, third) = add_twice(&totals, &mut seat);
    assert!(rt; first != Landed::Full && first == second && first != third);
    Ok(())
}

// Adds by a seat and by one that is split off it.
fn add_by_both(totals: &Totals, seat: &mut TotalSeat) -> Amount
    requires from { seat.old.table ≡ totals.now.table }
    requires sole { IsSole totals.now seat.old }
    requires left { 2 ≤ seat.old.left }
    ensures from { seat.new.table ≡ totals.now.table }
    ensures sole { IsSole totals.now seat.new }
    ensures sum { result ≡ added seat.new.adds 10 }
{
    let mut other = totals.split(seat, 1);
    totals.add(seat, 10, Dir::Ingress, 1, 60);
    totals.add(&mut other, 10, Dir::Egress, 2, 70);
    totals.join(seat, other);
    totals.read(seat, 10)
}

// Each of two seats learns what the other knows.
fn meet(totals: &Totals, one: &mut TotalSeat, two: &mut TotalSeat)
    requires from { (one.old.table ≡ totals.now.table) × (two.old.table ≡ totals.now.table) }
    ensures seats { (one.new ≡ record one.old { notes = one.new.notes }) × (two.new ≡ record two.old { notes = two.new.notes }) }
    ensures one { (key : ℕ) → known one.new key ≡ greater (known one.old key) (known two.old key) }
    ensures two { (key : ℕ) → known two.new key ≡ greater (known one.old key) (known two.old key) }
    ensures grows { KnowsAll one.old one.new × KnowsAll two.old two.new }
    ensures learns { (key : ℕ) → IsAtMost (added one.old.adds key) (known two.new key) }
    ensures sole { IsSole totals.now one.old → (key : ℕ) → known two.new key ≡ added one.old.adds key }
{
    let note = totals.split(one, 0);
    totals.join(two, note);
    let back = totals.split(two, 0);
    totals.join(one, back);
}

#[test]
fn seats_add_up_and_meet(rt: HostRuntime) -> Result<(), Fail> {
    let (totals, mut seat) = Totals::new(rt.alloc(), 1, 2)?;
    let mut watcher = totals.split(&mut seat, 0);
    let both = Amount {
        rx_packets: 1,
        rx_bytes: 60,
        tx_packets: 2,
        tx_bytes: 70,
    };
    assert_eq!(rt; add_by_both(&totals, &mut seat), both);
    meet(&totals, &mut seat, &mut watcher);
    assert_eq!(rt; totals.read(&mut watcher, 10), both);
    assert_eq!(rt; (watcher.left(), watcher.made()), (0, 0));
    Ok(())
}
