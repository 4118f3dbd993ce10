//! Terms and formulas of the logic.
#![tactic(auto)]

mod formulas;
mod free;
mod keys;
mod lists;
mod names;
mod scopes;
mod secrets;
mod sizes;
mod steps;
mod terms;

pub use formulas::{Compare, Formula, equal, equal_counted};
pub use free::{
    free_in, free_in_counted, is_closed, is_closed_but, is_closed_counted, is_closed_term,
};
pub use lists::ListError;
pub use names::{Name, NameError, Text, is_letter, is_name, is_reserved, is_text, is_word_byte};
pub use scopes::{Scope, equal_scopes};
pub use secrets::{Secret, is_secret};
pub use sizes::{size, term_size};
pub use steps::Steps;
pub use terms::{
    Args, ArgsError, Term, equal_term_lists, equal_term_lists_counted, equal_terms,
    equal_terms_counted,
};
