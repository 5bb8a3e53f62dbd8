//! A reader's calls.

ghost use Rattle.std.specs.Prelude.{◌≡◌, ◌≢◌, ◌+◌, ◌<◌, ◌++◌, ◌∷◌, [], length, max, IfSome, None};
ghost use Rattle.acct_base.specs.declared.register.Key.TheVariants.{Cookie};
ghost use Rattle.acct_base.specs.Journal.{last_write, IsTrueRead};
ghost use Rattle.reg_words.specs.Origins.{IsSeatOf, IsSameSeat};
ghost use Rattle.reg_words.specs.Registers.{IsPrefix, recorded};
ghost use Rattle.acct_base.specs.Registers.{IsValueOf};
ghost use Rattle.reg_words.specs.Rule.{Registered, seen_at};
ghost use Rattle.reg_words.specs.declared.view.Kind.TheVariants.{Reader as AsReader};
ghost use Rattle.reg_words.specs.declared.view.Stage.TheVariants.{Idle};

use crate::place::code_of;
use crate::reader::Reader;
use crate::regs::Regs;
use crate::view::TableSeat;
use crate::words::Words;
use acct_base::{Key, Seen};
use std::marker::Brand;

/// What a read gives where no write of the key is known.
const NEVER_WRITTEN: Seen = Seen {
    version: 0,
    value: None,
};

impl Words {
    // Reads the key, by the loads of its places, its register and its value. Who calls it knows the kind of the
    // key, so what the kinds differ in is settled there and not at each read.
    #[inline(always)]
    fn look_up(&self, seat: &mut TableSeat, key: Key) -> Seen
        requires table { IsSeatOf self.now seat.old }
        requires reads { (seat.old.me.0.kind ≡ AsReader) × (seat.old.me.0.stage ≡ Idle) }
        requires unnamed { last_write seat.old.me.0.list (length seat.old.me.0.list) (Cookie 0) ≡ 0 }
        ensures seat { IsSameSeat seat.old seat.new }
        ensures grows { IsPrefix seat.old.me.0.list seat.new.me.0.list }
        ensures long { length seat.new.me.0.list ≡ max (length seat.old.me.0.list) result.version }
        ensures is_true { IsTrueRead seat.new.me.0.list (length seat.old.me.0.list) key result }
        ensures value { IfSome result.value (IsValueOf key) }
        ensures no_socket { key ≡ Cookie 0 → result ≡ record { version = 0; value = None } }
        ensures view { seat.new.me.0 ≡ record seat.old.me.0 { list = seat.new.me.0.list; reads = seat.old.me.0.reads ++ recorded key result } }
        ensures unnamed { last_write seat.new.me.0.list (length seat.new.me.0.list) (Cookie 0) ≡ 0 }
    {
        if code_of(key) == 0 {
            return NEVER_WRITTEN;
        }
        let Some(at) = self.probe(seat, key) else {
            return NEVER_WRITTEN;
        };
        let register = self.load_register::<Brand>(seat, key, at);
        let version = (register / 2) as u32;
        if register % 2 == 0 {
            return Seen {
                version,
                value: None,
            };
        }
        let value = self.load_value::<Brand>(seat, key, version);
        Seen {
            version,
            value: Some(value),
        }
    }
}

impl Regs {
    /// Loads the published front once, and answers the greater of it and `seen()`, which becomes the answer.
    /// It takes no memory and waits for nobody.
    pub fn front(&self, r: &mut Reader) -> u32
        requires from { r.old.origin ≡ self.now }
        ensures from { r.new.origin ≡ r.old.origin }
        ensures loads { r.new.loads ≡ r.old.loads + 1 }
        ensures answer { result ≡ max r.new.loaded (length r.old.known) }
        ensures seen { length r.new.known ≡ result }
        ensures grows { IsPrefix r.old.known r.new.known }
        ensures reads { r.new.reads ≡ r.old.reads }
    {
        let front = self.words.load_front(&mut r.seat) as u32;
        r.seen = r.seen.max(front);
        r.seen
    }

    /// Reads a key. Its version is the number of the key's last write among those that the reader knows
    /// afterwards, 0 where there is none, and its value is what that write left. The reader then knows as many
    /// writes as the greater of what it knew and the version. Cookie(0) is never written: a read of it
    /// answers version 0, and is not counted among the reader's reads. It takes no memory and waits for nobody.
    #[inline(always)]
    pub fn read(&self, r: &mut Reader, key: Key) -> Seen
        requires from { r.old.origin ≡ self.now }
        ensures from { r.new.origin ≡ r.old.origin }
        ensures is_true { IsTrueRead r.new.known (length r.old.known) key result }
        ensures seen { length r.new.known ≡ max (length r.old.known) result.version }
        ensures grows { IsPrefix r.old.known r.new.known }
        ensures value { IfSome result.value (IsValueOf key) }
        ensures no_socket { key ≡ Cookie 0 → result ≡ record { version = 0; value = None } }
        ensures reads { r.new.reads ≡ r.old.reads ++ recorded key result }
        ensures loads { (r.new.loads ≡ r.old.loads) × (r.new.loaded ≡ r.old.loaded) }
    {
        let seen = self.words.look_up(&mut r.seat, key);
        r.seen = r.seen.max(seen.version);
        seen
    }
}
