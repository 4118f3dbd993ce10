ghost use Rattle.std.specs.Prelude.{◌≡◌, ◌^◌, ◌-◌, min, length};
ghost use Rattle.nal_term.specs.Trees.{formula_tree};
ghost use Rattle.nal_parse.specs.Canonical.{formula_levels, formula_text, part_levels, part_text};

use crate::printer::strength;
use nal_term::Formula;

/// A formula that was read, with the measures of its canonical text, so that nothing is walked over again: how many bytes it
/// has, and how many levels it opens at once; each `u64::MAX` where there are more.
#[derive(Drop)]
pub struct Part {
    pub formula: Box<Formula>,
    pub bytes: u64,
    pub levels: u64,
    ghost bytes_are: { bytes ≡ min (length (formula_text (formula_tree formula.value))) (2 ^ 64 - 1) },
    ghost levels_are: { levels ≡ min (formula_levels (formula_tree formula.value)) (2 ^ 64 - 1) },
}

impl Part {
    /// How many bytes its text has with the brackets that stand round it where its strength is below the one asked for.
    pub fn bytes_within(&self, asked: u8) -> u64
        ensures { result
            ≡ min
            (length
            (part_text asked (formula_tree self.now.formula.value)
            (formula_text (formula_tree self.now.formula.value)))) (2 ^ 64 - 1) }
    {
        if strength(&self.formula) < asked {
            self.bytes.saturating_add(2)
        } else {
            self.bytes
        }
    }

    /// How many levels it opens, one more where it stands in brackets.
    pub fn levels_within(&self, asked: u8) -> u64
        ensures { result
            ≡ min
            (part_levels asked (formula_tree self.now.formula.value)
            (formula_levels (formula_tree self.now.formula.value))) (2 ^ 64 - 1) }
    {
        if strength(&self.formula) < asked {
            self.levels.saturating_add(1)
        } else {
            self.levels
        }
    }
}
