//! The texts of formulas and terms: what they spell, and the canonical text of each.
#![tactic(auto)]

mod formulas;
mod laws;
mod lengths;
mod makers;
mod parse;
mod parts;
mod printer;
mod reader;
mod statements;
mod stops;
mod terms;
mod tokens;

pub use laws::{canonical_texts_spell, refused_texts_have_one_error, texts_spell_one_tree};
pub use lengths::{digit_count, fits, fits_said, term_fits, term_length, text_length};
pub use parse::{ParseError, parse_formula, parse_term};
pub use printer::{print_formula, print_term};
pub use tokens::{blank_length, number_of_digits, run_length};
