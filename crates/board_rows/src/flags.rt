//! The subject matter of the rows: flags, of which `specs/Flags.antt` says what is right.
ghost use Rattle.std.specs.Prelude.{◌≡◌};

use verdict_words::{CasePlace, Held, Matter};

/// A flag that a session raises.
#[derive(Drop)]
pub struct Flag {
    pub session: u64,
    pub flag: u64,
}

/// The subject matter: case k is allowed until flag k is raised.
pub struct Flags;

impl Matter for Flags {
    ghost use Rattle.std.specs.Prelude.{ℕ};
    ghost use Rattle.board_rows.specs.Flags.{IsAllowed, Raises, IsOwnPlace, stays_allowed};

    type Entry = Flag;

    type Setting = ();

    ghost session = { λ e. e.session };

    ghost right = { λ _ history case held. IsAllowed (λ e. e.flag) history case held };

    ghost touches = { λ _ history e region. Raises (λ e. e.flag) history e region };

    ghost home = { λ _ _ place. IsOwnPlace place };

    ghost stays_right = { λ _ history at place held home _ right object _. stays_allowed (λ e. e.flag) history at place held home right object };

    ghost home_grows = { λ _ _ _ _ home. home };
}

pub const ALLOWED: Held = Held {
    code: 1,
    line: 0,
    fault: 0,
};

pub fn case_place(case: u64) -> CasePlace
    ensures { result ≡ record { case = case; object = case; store = 0 } }
{
    CasePlace {
        case,
        object: case,
        store: 0,
    }
}
