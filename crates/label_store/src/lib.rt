//! The store of labels: which principal holds which label, under which number.
#![tactic(auto)]

mod counts;
mod labels;
mod rows;

pub use labels::{LabelRefusal, LabelStore, LabelsOf};
