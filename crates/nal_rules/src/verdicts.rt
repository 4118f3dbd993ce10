ghost use Rattle.std.specs.Prelude.{◌≡◌};
ghost use Rattle.nal_rules.specs.Faults.{fault_number};
ghost use Rattle.nal_rules.specs.Numbers.{cause_numbers};

/// What is wrong with a line of a proof. Where several apply, the first in this order is told.
/// `docs/LOGIC.md`, "Faults", says when each applies.
#[derive(Clone, Copy, Debug, PartialEq, Eq)]
pub enum Fault {
    NoSuchRef,
    NotHyp,
    WrongShape,
    Capture,
    NotFresh,
    OutOfScope,
    NotTrue,
    TooManyAsks,
    NotAsk,
    NotClosed,
    StillOpen,
    NotGoal,
}

/// Why a call is denied. Lines are numbered from 1. Where several apply, the first in this order is told.
/// `docs/LOGIC.md`, "Verdicts", says when each applies.
#[derive(Clone, Copy, Debug, PartialEq, Eq)]
pub enum Cause {
    GoalUnset,
    NoProof,
    Line { line: u64, fault: Fault },
    LabelMissing { line: u64 },
    NotBound { line: u64 },
    AuthorityNo { line: u64 },
}

/// What the guard answers of a case.
#[derive(Clone, Copy, Debug, PartialEq, Eq)]
pub enum Verdict {
    Allowed,
    Denied(Cause),
}

/// The numbers by which a cause is told: its own, from 1, the line's and the fault's, each 0 where there is none. It
/// takes no memory. `docs/LOGIC.md`, "Faults" and "Verdicts", number faults and causes.
pub fn cause_numbers(cause: &Cause) -> (u64, u64, u64)
    ensures { result ≡ cause_numbers cause.now }
{
    match cause {
        Cause::GoalUnset => (1, 0, 0),
        Cause::NoProof => (2, 0, 0),
        Cause::Line { line, fault } => (3, *line, fault_number(*fault)),
        Cause::LabelMissing { line } => (4, *line, 0),
        Cause::NotBound { line } => (5, *line, 0),
        Cause::AuthorityNo { line } => (6, *line, 0),
    }
}

fn fault_number(fault: Fault) -> u64
    ensures { result ≡ fault_number fault }
{
    match fault {
        Fault::NoSuchRef => 1,
        Fault::NotHyp => 2,
        Fault::WrongShape => 3,
        Fault::Capture => 4,
        Fault::NotFresh => 5,
        Fault::OutOfScope => 6,
        Fault::NotTrue => 7,
        Fault::TooManyAsks => 8,
        Fault::NotAsk => 9,
        Fault::NotClosed => 10,
        Fault::StillOpen => 11,
        Fault::NotGoal => 12,
    }
}
