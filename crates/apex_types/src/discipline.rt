// How a waiting set chooses its first process.

/// The queuing discipline of a waiting set.
#[derive(Clone, Copy, Debug, PartialEq, Eq)]
pub enum Discipline {
    /// First in, first out.
    Fifo,
    /// By the priority at the call, and among equals first in, first out.
    Priority,
}
