//! The tables whose sizes a script may give.

/// A table whose size a script may give, in the order of the lines.
#[derive(Clone, Copy, Debug, PartialEq, Eq)]
pub enum MapName {
    /// Labels of one phase.
    Rows,
    /// Cookies that were ever tagged.
    Cookies,
    /// Uids that ever had a counter set.
    Sets,
    /// Uids that ever had a rule.
    Owners,
    /// Writes of the journal.
    Writes,
    /// Uids with an app total.
    Apps,
    /// Interfaces with a total.
    Ifaces,
}
