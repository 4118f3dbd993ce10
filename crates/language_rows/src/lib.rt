//! The language: terms, formulas, substitutions, lines of proofs and the texts of all of them, the lines of a text and the hashes of keys,
//! with values worked out by hand. It has tests alone.
#![tactic(auto)]

#[cfg(test)]
mod formula_printing;
#[cfg(test)]
mod formula_texts;
#[cfg(test)]
mod hashes;
#[cfg(test)]
mod keyed_hashes;
#[cfg(test)]
mod lines_of_text;
#[cfg(test)]
mod proof_printing;
#[cfg(test)]
mod proof_shapes;
#[cfg(test)]
mod proof_texts;
#[cfg(test)]
mod rows;
#[cfg(test)]
mod substitutions;
#[cfg(test)]
mod terms;
