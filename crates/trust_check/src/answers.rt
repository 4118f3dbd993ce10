/// What comes of a goal where some principals are not trusted.
#[derive(Clone, Copy, Debug, PartialEq, Eq)]
pub enum Trust {
    /// Whatever they say, no proof without quantifier rules reaches the goal.
    Safe,
    /// The label with this number, counted from 1, is the first that gives them more than was assumed.
    Label { label: u64 },
    /// The goal itself is true under the assumptions.
    Goal,
}
