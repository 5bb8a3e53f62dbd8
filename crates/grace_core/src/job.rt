//! Tests on jobs.

ghost use Rattle.std.specs.Prelude.{◌≡◌};
ghost use Rattle.grace_core.specs.Machine as machine;

use acct_base::{Dir, Job};

/// The most packets, and the most bytes, of one charge.
const MOST: u64 = 524287;

/// Whether one charge may have so many packets or bytes.
fn is_chargeable(n: u64) -> bool
    ensures { result ≡ machine.is_chargeable n }
{
    n >= 1 && n <= MOST
}

/// Whether a job may be charged.
pub(crate) fn is_valid_job(job: &Job) -> bool
    ensures { result ≡ machine.is_valid_job job.now }
{
    job.label.is_valid() && is_chargeable(job.packets) && is_chargeable(job.bytes)
}

/// 0 for packets received, 1 for packets sent.
fn direction(dir: Dir) -> u32
    ensures { result ≡ machine.direction dir }
{
    match dir {
        Dir::Ingress => 0,
        Dir::Egress => 1,
    }
}

/// The column of a direction's packets.
pub(crate) fn packets_column(dir: Dir) -> u32
    ensures value { result ≡ machine.packets_column dir }
{
    2 + 2 * direction(dir)
}

/// The column of a direction's bytes.
pub(crate) fn bytes_column(dir: Dir) -> u32
    ensures value { result ≡ machine.bytes_column dir }
{
    3 + 2 * direction(dir)
}

/// Whether two jobs are the same.
pub(crate) fn same_job(a: &Job, b: &Job) -> bool
    ensures { result ≡ machine.same_job a.now b.now }
{
    a.label.is_same(&b.label)
        && direction(a.dir) == direction(b.dir)
        && a.packets == b.packets
        && a.bytes == b.bytes
}
