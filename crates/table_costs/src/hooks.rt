//! Hooks of whole packets.

ghost use Rattle.std.specs.Prelude.{◌≡◌, ◌≤◌, IfOk};

use crate::plan::Plan;
use crate::table::{Table, fill};
use acct_base::{Dir, Family, HookIn, RegSizes, Sizes};
use hook_engine::{Engine, Pass};
use std::alloc::{AllocError, Global};

/// How many calls the engine is made for.
const CALLS: u64 = 268_435_456;

/// An engine on which nothing is written, with the one pass that makes calls.
#[derive(Drop)]
pub struct Hooks {
    engine: Engine,
    pass: Pass,
    ghost from: { pass.tables ≡ engine.tables },
}

impl Hooks {
    /// An engine in whose maps and totals each key of the plan, which is a uid, has a row.
    pub fn new(alloc: Global, plan: &Plan) -> Result<Hooks, AllocError>
        requires { plan.now.rows ≤ 5000 }
        ensures { IfOk result (λ h. plan.now.calls ≤ h.pass.has.left) }
    {
        let regs = RegSizes {
            cookies: plan.rows,
            sets: plan.rows,
            owners: plan.rows,
            writes: 1,
        };
        let sizes = Sizes {
            rows: plan.rows,
            regs,
            apps: plan.rows,
            ifaces: 1,
            calls: CALLS,
        };
        let (engine, pass, _) = Engine::new(alloc, &sizes)?;
        let mut hooks = Hooks { engine, pass };
        fill(&mut hooks, plan);
        Ok(hooks)
    }
}

impl Table for Hooks {
    ghost left = { λ h. h.pass.has.left };

    /// An untagged packet of the uid comes in, passes and is counted. Its phase is given.
    fn turn(&mut self, key: u32) -> Option<u32> {
        let call = HookIn {
            sock_uid: key,
            cookie: 0,
            dir: Dir::Ingress,
            iface: 1,
            family: Family::V4,
            len: 60,
            head: &[],
        };
        self.engine.hook(&mut self.pass, &call).phase
    }
}
