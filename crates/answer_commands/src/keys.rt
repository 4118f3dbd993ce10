ghost use Rattle.std.specs.Prelude.{◌≡◌, ◌↔◌, IfOk, IsTrue, Contains};
ghost use Rattle.nal_term.specs.Trees.{formula_tree};
ghost use Rattle.nal_parse.specs.Canonical.{IsSpellable, formula_text};
ghost use Rattle.answer_commands.specs.Inner.Hashes.{hash_of};

use keyed_hash::SipHasher;
use nal_parse::{print_formula, texts_spell_one_tree};
use nal_term::Formula;
use nx_io::Bytes;
use std::alloc::{AllocError, Global};
use std::hash::Hasher;
use std::snapshot::Snapshot;

/// The key under which texts are hashed. Each run judges one input of its own caller, so it need not be secret.
const HASH_KEY: (u64, u64) = (0x6e65_7875_7320_6368, 0x6563_6b20_6c6f_6f6b);

/// What a formula is known by again: its hash, and its canonical text, which no other formula has. It takes as much memory as the
/// text; the formula itself is there for contracts alone.
#[derive(Drop)]
pub struct FormulaKey {
    hash: u64,
    text: Bytes,
    pub formula: Snapshot<Formula>,
    ghost hashed: { hash ≡ hash_of (formula_text (formula_tree formula.value)) },
    ghost written: { text ≡ formula_text (formula_tree formula.value) },
    ghost spellable: { ∥ IsSpellable (formula_tree formula.value) ∥₁ },
}

impl FormulaKey {
    ghost use Rattle.answer_commands.specs.Inner.Forms.{tree_of, formula_trees};

    /// The key of a formula.
    pub fn of(alloc: Global, formula: &Formula) -> Result<FormulaKey, AllocError>
        ensures { IfOk result (λ key. tree_of key ≡ formula_tree formula.now) }
    {
        let text = print_formula(alloc, formula)?;
        Ok(FormulaKey {
            hash: hash_of(text.as_slice()),
            text,
            formula: Snapshot::of(formula),
        })
    }

    /// Whether both are keys of one formula.
    pub fn is_same(&self, other: &FormulaKey) -> bool
        ensures { IsTrue result ↔ (tree_of self.now ≡ tree_of other.now) }
    {
        texts_spell_one_tree();
        self.hash == other.hash && self.text.as_slice() == other.text.as_slice()
    }

    /// Whether it is one of these.
    pub fn is_among(&self, keys: &[FormulaKey]) -> bool
        ensures { IsTrue result ↔ Contains (formula_trees keys.now) (tree_of self.now) }
    {
        for index in 0..keys.len() {
            if keys[index].is_same(self) {
                return true;
            }
        }
        false
    }
}

/// The hash of a text; texts with different hashes are different.
fn hash_of(text: &[u8]) -> u64
    ensures { result ≡ hash_of text.now }
{
    let mut state = SipHasher::new(HASH_KEY.0, HASH_KEY.1);
    state.write(text);
    state.finish()
}
