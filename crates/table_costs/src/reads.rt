//! Reads of registers.

ghost use Rattle.std.specs.Prelude.{◌≡◌, ◌<◌, ◌≤◌};

use crate::keys::key_at;
use crate::plan::Plan;
use crate::table::Table;
use acct_base::{Key, RegSizes};
use reg_words::{Reader, Regs, Writer};
use std::alloc::{AllocError, Global};

/// Registers, with the one seat that reads.
#[derive(Drop)]
pub struct Reads {
    regs: Regs,
    reader: Reader,
    ghost from: { reader.origin ≡ regs },
}

// Writes a tag to each cookie of the plan.
fn write_tags(regs: &Regs, writer: &mut Writer, plan: &Plan)
    requires { writer.old.origin ≡ regs.now }
    ensures { writer.new.origin ≡ regs.now }
{
    for index in 0..plan.keys {
        let cookie = Key::Cookie(u64::from(key_at(plan.spread, index)));
        let _ = regs.write(writer, cookie, Some(u64::from(index)));
    }
}

impl Reads {
    /// Registers in which each key of the plan is a cookie with a tag, and whose reader knows them all.
    pub fn new(alloc: Global, plan: &Plan) -> Result<Reads, AllocError>
        requires { plan.now.rows ≤ 262144 }
    {
        let sizes = RegSizes {
            cookies: plan.rows,
            sets: 1,
            owners: 1,
            writes: plan.keys,
        };
        let (regs, mut writer, mut reader) = Regs::new(alloc, &sizes)?;
        write_tags(&regs, &mut writer, plan);
        regs.meet(&mut reader, &mut writer);
        Ok(Reads { regs, reader })
    }
}

impl Table for Reads {
    ghost left = { λ _. 100000000 };

    /// The cookie's tag is read.
    fn turn(&mut self, key: u32) -> Option<u32> {
        let seen = self
            .regs
            .read(&mut self.reader, Key::Cookie(u64::from(key)));
        match seen.value {
            Some(_) => Some(seen.version),
            None => None,
        }
    }
}
