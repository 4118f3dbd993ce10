//! How a case is copied from the journal.
ghost use Rattle.std.specs.Prelude.{◌≡◌, ◌<◌, [], ◌∷◌, length, option_map};
ghost use Rattle.policy_history.specs.Values.{entry_trees};
ghost use Rattle.verdict_words.specs.Settling.{AreGathered};
ghost use Rattle.policy_book.specs.Books.{IsMetAt, met_at};
ghost use Rattle.policy_book.specs.Snaps.{IsSnap};

use crate::matter::NalMatter;
use crate::seated::SeatedJournal;
use nal_rules::Case;
use nal_term::Name;
use policy_history::Found;
use std::alloc::{AllocError, Global};
use verdict_words::{Board, CasePlace, Pass};

/// What is told of a case.
#[derive(Drop)]
pub enum Snapped {
    /// The case at the point `at`, its place, if it has a number, and the object's number.
    Case {
        at: u64,
        case: Case,
        place: Option<CasePlace>,
        object: u64,
    },
    /// At the point `at` no object has the name.
    NoObject {
        at: u64,
    },
    /// There was no memory for a copy.
    NoMemory,
}

impl SeatedJournal {
    /// Meets the pass, and copies the case of this principal and an operation on the object with this name, as it is at the
    /// end of the journal. `NoObject` exactly where no object has the name, which takes no memory.
    pub(crate) fn snap(
        &mut self,
        alloc: Global,
        board: &Board<NalMatter>,
        pass: Pass<NalMatter>,
        principal: u32,
        op: &Name,
        object: &Name,
    ) -> (Pass<NalMatter>, Snapped)
        requires board { self.old.board ≡ board.now }
        requires pass { pass.board ≡ board.now }
        requires principal { principal < length self.old.board.origin.setting.principals }
        ensures snapped { IsSnap self.old.board.origin.setting (entry_trees self.old.entries) principal op.now
            object.now result.1 }
        ensures pass { result.0 ≡ met_at self.old.board self.old.entries self.new.known pass }
        ensures met { IsMetAt self.old.board self.old.next self.old.entries pass }
        ensures known { AreGathered self.old.board self.old.next self.old.entries self.old.known (pass ∷ [])
            self.new.known }
        ensures seated { self.new ≡ record self.old { known = self.new.known } }
    {
        let pass = self.meet(board, pass);
        (pass, self.case_of(alloc, principal, op, object))
    }

    // The case at the end of the journal.
    fn case_of(&self, alloc: Global, principal: u32, op: &Name, object: &Name) -> Snapped
        requires { principal < length self.now.board.origin.setting.principals }
        ensures { IsSnap self.now.board.origin.setting (entry_trees self.now.entries) principal op.now object.now
            result }
    {
        let at = self.journal.count();
        let _principals = self.journal.head().principals.count();
        match self.journal.case_of(alloc, principal, op, object) {
            Ok(
                Found::Case {
                    case,
                    number,
                    object,
                },
            ) => Snapped::Case {
                at,
                case,
                place: place_of(number, object, principal),
                object,
            },
            Ok(Found::NoObject) => Snapped::NoObject { at },
            Err(AllocError) => Snapped::NoMemory,
        }
    }
}

// The place of a case that has a number.
fn place_of(number: Option<u64>, object: u64, principal: u32) -> Option<CasePlace>
    ensures { result ≡ option_map (λ k. record { case = k; object = object; store = principal }) number }
{
    match number {
        None => None,
        Some(case) => Some(CasePlace {
            case,
            object,
            store: u64::from(principal),
        }),
    }
}
