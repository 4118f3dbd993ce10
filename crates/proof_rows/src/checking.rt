// Small proofs and what the checker answers of each, worked out by hand; and the other calls once.
mod comparisons;
mod connectives;
mod delegations;
mod limits;
mod lists;
mod order;
mod proofs;
mod quantifiers;
mod statements;
mod steps;
