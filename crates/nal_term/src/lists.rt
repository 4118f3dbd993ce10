/// Why a list took no further item.
#[derive(Clone, Copy, Debug, PartialEq, Eq)]
pub enum ListError {
    /// The list with the item would break the bound that its type states.
    Bound,
    /// There was no memory for the item.
    Memory,
}
