//! The records of calls: whether they are wanted, and what was sent of them.
ghost use Rattle.std.specs.Prelude.{◌≡◌, ◌≤◌, ℕ, MatchOption, false, true, length};
ghost use Rattle.nal_term.specs.Names.{IsName};
ghost use Rattle.policy_history.specs.PolicyTexts.{ended};
ghost use Rattle.audit_check.specs.declared.records.Answers.TheVariants.{Known};
ghost use Rattle.audit_check.specs.declared.records.Recorded.{Recorded};
ghost use Rattle.audit_form.specs.RecordLines.{record_text};
ghost use Rattle.audit_form.specs.ReplyRecords.{Records, record_of};
ghost use Rattle.session_core.specs.Records.{unwanted};
ghost use Rattle.session_core.specs.Inner.Boarding.{IsWritten};

use audit_form::record_line;
use nal_term::Name;
use nx_io::{Reach, Sink, send_all};
use session_wire::Reply;
use std::marker::Model;

/// Who keeps the records of the calls of a worker: nobody, or a sink. It takes no memory. `docs/LOGIC.md`, "Records of a service", states
/// what is sent.
#[derive(Drop)]
pub struct RecordKeeper<C: Sink> {
    sink: Option<C>,
    // Whether a record was cut off, so that nothing may be sent behind it.
    is_broken: bool,
}

impl<C: Sink> Model for RecordKeeper<C> {
    ghost use Rattle.session_core.specs.Records.{Kept, kept_by};

    ghost Value = { Kept };

    ghost view = { λ k. kept_by C.sent C.faults k.sink k.is_broken };
}

impl<C: Sink> RecordKeeper<C> {
    /// Nobody: records are not wanted.
    pub fn nobody() -> RecordKeeper<C>
        ensures { result ≡ unwanted }
    {
        RecordKeeper {
            sink: None,
            is_broken: false,
        }
    }

    /// This sink keeps them.
    pub fn over(sink: C) -> RecordKeeper<C>
        ensures { result ≡ record { wanted = true; sent = C.sent sink; faults = C.faults sink; broken = false } }
    {
        RecordKeeper {
            sink: Some(sink),
            is_broken: false,
        }
    }

    /// The sink, where records are wanted.
    pub fn into_sink(self) -> Option<C>
        ensures { MatchOption result (self.wanted ≡ false)
            (λ sink. (self.wanted ≡ true) × (C.sent sink ≡ self.sent) × (C.faults sink ≡ self.faults)) }
    {
        self.sink
    }

    /// Whether a record was cut off.
    pub fn is_broken(&self) -> bool
        ensures broken { result ≡ self.now.broken }
        ensures wanted { result ≡ true → self.now.wanted ≡ true }
    {
        match &self.sink {
            Some(_) => self.is_broken,
            None => false,
        }
    }

    /// Sends the line of the record of a call, which the principal with this name made, whom authorities gave these answers, and who is
    /// about to be told this, where records are wanted. Whether nothing is missing: then the call may go on.
    pub(crate) fn note(
        &mut self,
        who: &Name,
        op: &Name,
        object: &Name,
        answers: &[bool],
        told: &Reply,
    ) -> bool
        requires whole { self.old.broken ≡ false }
        requires few { length answers.now ≤ 16 }
        requires due { (at : ℕ) × (v : Recorded) × Records told.now at v }
        ensures written { (p at : ℕ) (v : Recorded) → Records told.now at v
            → IsWritten (ended (record_text who.now (record_of p op.now object.now at (Known answers.now) v)))
            result self.old self.new }
        ensures named { self.old.wanted ≡ true → IsName who.now × IsName op.now × IsName object.now }
    {
        let Some(sink) = &mut self.sink else {
            return true;
        };
        let line = record_line(who, op, object, answers, told);
        match send_all(sink, line.as_slice()) {
            Reach::Ready => true,
            Reach::Failed => {
                self.is_broken = true;
                false
            }
        }
    }
}
