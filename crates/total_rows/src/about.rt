//! What a step is about, for the proof alone: a step has no operand that names the job or the key. A call
//! picks it at `Brand` from its own arguments.

ghost use Rattle.std.specs.Prelude.{ℕ};
ghost use Rattle.acct_base.specs.declared.packet.Dir.TheVariants.{Ingress};
ghost use Rattle.total_rows.specs.declared.plan.Job.{Job};
ghost use Rattle.total_rows.specs.declared.plan.Plan.{Plan};
ghost use Rattle.total_rows.specs.declared.plan.Stage.{Stage};
ghost use Rattle.total_rows.specs.declared.plan.Stage.TheVariants.{Idle};

use std::marker::Brand;

/// The plan of the table, the job or the key, a turn, a row or a number of one, and the stage that comes next.
pub trait About {
    ghost plan: { Plan };

    ghost job: { Job };

    ghost key: { ℕ };

    ghost number: { ℕ };

    ghost next: { Stage };
}

impl About for Brand {
    ghost plan = { record { rows = 0; calls = 0 } };

    ghost job = { record { key = 0; dir = Ingress; packets = 0; bytes = 0 } };

    ghost key = { 0 };

    ghost number = { 0 };

    ghost next = { Idle };
}
