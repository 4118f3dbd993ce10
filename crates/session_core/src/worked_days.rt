//! Worked days of a principal, by which the definitions were tried: theorems that nobody has to believe.
ghost use Rattle.session_core.specs.Inner.ToldRows.{AllowedAndKept, AllowedAndOtherSaid, AllowedAndThenDeleted, AllowedThenDenied, AskedEachTime, ChangesAreSeen, DeletedStillAllowed, DoneWithoutEntry, FirstCallHits, GreetedOnce, NotRecordedIsRefused, OtherRegionLeaves, SameRegionRaises, SeenTooEarly, WrongLineAndThenCleared, WrongLineKept, YesUsedTwice};

/// Sessions of one principal are told so, from their hello on: what is kept, what is looked up, and what is refused. The call does
/// nothing.
#[tactic(auto)]
pub fn worked_sessions_are_told()
    ensures kept { AllowedAndKept }
    ensures deleted { AllowedAndThenDeleted }
    ensures other { AllowedAndOtherSaid }
    ensures wrong { WrongLineKept }
    ensures cleared { WrongLineAndThenCleared }
    ensures far { OtherRegionLeaves }
    ensures near { SameRegionRaises }
    ensures asked { AskedEachTime }
    ensures seen { ChangesAreSeen }
    ensures greeted { GreetedOnce }
    ensures unrecorded { NotRecordedIsRefused }
{}

/// What such a session is never told, whatever was asked and whatever steps it made. The call does nothing.
#[tactic(auto)]
pub fn wrong_answers_are_never_told()
    ensures done { DoneWithoutEntry }
    ensures first { FirstCallHits }
    ensures denied { AllowedThenDenied }
    ensures allowed { DeletedStillAllowed }
    ensures twice { YesUsedTwice }
    ensures early { SeenTooEarly }
{}
