//! The orders in which events are taken.

/// Which of the active events a step takes next. They stand in this order: updates of inputs by signal, updates of
/// drivers by process, woken processes by process, the first activated nonblocking update.
#[derive(Clone, Copy, PartialEq, Eq, Debug)]
pub enum Policy {
    /// Updates first, and then the woken process of least level and number; those without a level come last.
    Level,
    /// The first.
    Ascending,
    /// The last.
    Descending,
}
