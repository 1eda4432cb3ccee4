// What there is to warn of.

/// What is allowed and most likely a mistake. Operations have their numbers in the catalog; processes are counted from 0 in their
/// list, and steps from 0 in the text of their process.
#[derive(Clone, Copy, Debug, PartialEq, Eq)]
pub enum Warning {
    /// No process uses this operation.
    Unused(u16),
    /// These two operations conflict in value, and the catalog names no conflict of them; the first is at most the second.
    Commuting(u16, u16),
    /// A process before this one has its name.
    SameProcess(usize),
    /// This step of this process holds a seat with 0, which leaves it free.
    HoldOfNothing(usize, u16),
    /// This step of this process takes a negative amount.
    NegativeTake(usize, u16),
}
