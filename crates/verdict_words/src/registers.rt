//! The steps on registers. Each is one atomic step within the call, and answers what the register held before it: what the
//! last step on it left there, whichever session made that.
ghost use Rattle.std.specs.Prelude.{◌≡◌, ◌<◌, [], ◌∷◌, ◌++◌};
ghost use Rattle.verdict_words.specs.Words.{most_objects};
ghost use Rattle.verdict_words.specs.Orders.{Steps, item_steps};
ghost use Rattle.verdict_words.specs.declared.views.Item.TheVariants.{Ran};
ghost use Rattle.verdict_words.specs.declared.views.RegisterStep.TheVariants.{Read, Write, Add};

use crate::board::Board;
use crate::matter::Matter;
use crate::pass::Pass;

impl<M: Matter> Board<M> {
    /// Loads the register of the object.
    pub fn run_read(&self, pass: &mut Pass<M>, object: u64) -> u64
        requires board { pass.old.board ≡ self.now }
        requires object { object < most_objects }
        ensures pass { pass.new
            ≡ record pass.old { trail = pass.old.trail ++ Ran object Read result ∷ []; known = pass.new.known } }
        ensures step { Steps pass.old.known (item_steps pass.old.session (Ran object Read result)) pass.new.known }
    {
        let _has_words = &self.words;
        self.read_register(&mut pass.place, object)
    }

    /// Sets the register of the object, and returns what it held.
    pub fn run_write(&self, pass: &mut Pass<M>, object: u64, value: u64) -> u64
        requires board { pass.old.board ≡ self.now }
        requires object { object < most_objects }
        ensures pass { pass.new
            ≡ record pass.old
            { trail = pass.old.trail ++ Ran object (Write value) result ∷ []; known = pass.new.known } }
        ensures step { Steps pass.old.known (item_steps pass.old.session (Ran object (Write value) result))
            pass.new.known }
    {
        let _has_words = &self.words;
        self.swap_register(&mut pass.place, object, value)
    }

    /// Adds to the register of the object, modulo 2^64, and returns what it held.
    pub fn run_add(&self, pass: &mut Pass<M>, object: u64, value: u64) -> u64
        requires board { pass.old.board ≡ self.now }
        requires object { object < most_objects }
        ensures pass { pass.new
            ≡ record pass.old { trail = pass.old.trail ++ Ran object (Add value) result ∷ []; known = pass.new.known } }
        ensures step { Steps pass.old.known (item_steps pass.old.session (Ran object (Add value) result))
            pass.new.known }
    {
        let _has_words = &self.words;
        self.add_to_register(&mut pass.place, object, value)
    }
}
