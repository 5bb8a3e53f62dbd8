use std::marker::Sync;

/// What is told of each call of a lane, right before the call and right after it.
///
/// Lanes run on threads of their own, and tell one gate by turns. A gate can note what it is told,
/// or hold a lane back, as a test does to bring about a schedule. It changes nothing that a contract
/// speaks of, since it gets two numbers and gives nothing.
pub trait Gate: Sync {
    /// The call `k` of the lane `lane` comes next. Both count from 0.
    fn before(&self, lane: u32, k: u32);

    /// The call `k` of the lane `lane` is done. Both count from 0.
    fn after(&self, lane: u32, k: u32);
}

/// The gate that does nothing, for programs.
#[derive(Clone, Copy, Debug, PartialEq, Eq)]
pub struct NoGate;

impl Gate for NoGate {
    fn before(&self, _lane: u32, _k: u32) {}

    fn after(&self, _lane: u32, _k: u32) {}
}
