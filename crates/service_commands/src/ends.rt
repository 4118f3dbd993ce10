//! What the program hands back.
ghost use Rattle.std.specs.Prelude.{◌≡◌};
ghost use Rattle.std.specs.Option.{option_or};
ghost use Rattle.service_commands.specs.Notes.{IsNoted};

use crate::notes::noted;
use authority_ask::Panel;
use nexus_serve::{Means, Reports};
use nx_io::{Door, Recorder, Sink};
use policy_history::Journal;
use run_streams::InputRefusal;
use std::marker::Model;

/// How the program ended, and what it hands back.
#[derive(Drop)]
pub struct Ended<D: Door, P: Panel, C: Recorder, K: Sink> {
    /// The status that the operating system is given. `docs/FORMATS.md`, "Statuses", says what each means.
    pub status: u8,
    /// Why the input was refused, with status 3.
    pub refusal: Option<InputRefusal>,
    /// The sink that was handed in.
    pub output: Option<K>,
    /// The sink for records that was handed in. The workers of a service whose calls are recorded had shares of it.
    pub records: Option<C>,
    /// The journal at the end of a service or a script, where a policy was read and its text was to be written.
    pub journal: Option<Journal>,
    /// The reports of all sessions of a service, a list for each worker.
    pub reports: Vec<Reports<D::Link>>,
    /// The link that was dialed, if any.
    pub dialed: Option<D::Link>,
    /// The door that was handed in.
    pub door: D,
    /// The shares of the door that were made.
    pub doors: Vec<D>,
    /// The panel that was handed in.
    pub panel: P,
    /// What the workers of a service had: the shares of the panel that were made, and with each who kept the records of the worker's
    /// calls, which is a share of the sink for records where they are recorded.
    pub means: Vec<Means<P, C>>,
}

impl<D: Door, P: Panel, C: Recorder, K: Sink> Model for Ended<D, P, C, K> {
    ghost use Rattle.std.specs.Coded.{codes};
    ghost use Rattle.nal_term.specs.contracts.terms.Term as t;
    ghost use Rattle.nal_term.specs.contracts.formulas.Formula as f;
    ghost use Rattle.service_commands.specs.Services.{EndedValue};

    ghost Value = { EndedValue K C D D.Link P };

    ghost coded = { Prim.hlevel (codes, t.the_row.coded, f.the_row.coded) };

    ghost view = { λ e. record {
      status = e.status;
      refusal = e.refusal;
      output = e.output;
      records = e.records;
      journal = e.journal;
      reports = e.reports.items;
      dialed = e.dialed;
      door = e.door;
      doors = e.doors.items;
      panel = e.panel;
      means = e.means.items;
    } };
}

impl<D: Door + Drop, P: Panel + Drop, C: Recorder + Drop, K: Sink + Drop> Ended<D, P, C, K>
where
    D::Link: Drop,
{
    /// The same end, where a sink for records was kept aside: it is handed back, if there is one.
    pub fn with_records(self, aside: Option<C>) -> Ended<D, P, C, K>
        ensures { result ≡ record self { records = option_or self.records aside } }
    {
        Ended {
            records: self.records.or(aside),
            ..self
        }
    }

    /// The same end, where the sink for records, if there is one, was told what is wrong with an input that was refused. What comes of that
    /// changes nothing else.
    pub fn with_note(self) -> Ended<D, P, C, K>
        ensures rest { result ≡ record self { records = result.records } }
        ensures noted { IsNoted C.Sink self.refusal self.records result.records }
    {
        Ended {
            records: noted(self.refusal, self.records),
            ..self
        }
    }
}
