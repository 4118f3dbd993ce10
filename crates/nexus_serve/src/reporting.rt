//! What is reported of the sessions of a worker.
use nx_io::Link;
use policy_book::NalMatter;
use session_core::SessionEnd;
use std::marker::Model;
use verdict_words::Pass;

/// What is reported of a session, beside its pass.
#[derive(Drop)]
pub struct ServedSession<L> {
    pub session: u64,
    /// Who was admitted in it, if anybody was.
    pub principal: Option<u32>,
    pub link: L,
    pub end: SessionEnd,
}

/// The reports of a worker's sessions, in their order: the pass of each stands at its place in the other list, and there is one for
/// each. Contracts see the list of the reports.
#[derive(Drop)]
pub struct Reports<L: Link> {
    pub sessions: Vec<ServedSession<L>>,
    pub passes: Vec<Pass<NalMatter>>,
}

impl<L: Link> Model for Reports<L> {
    ghost use Rattle.std.specs.Prelude.{◌≡◌, List, length, map};
    ghost use Rattle.std.specs.Coded.{codes};
    ghost use Rattle.nal_term.specs.contracts.terms.Term as t;
    ghost use Rattle.nal_term.specs.contracts.formulas.Formula as f;
    ghost use Rattle.nx_io.specs.Views.{link_view};
    ghost use Rattle.nexus_serve.specs.Views.{ReportView, joined, session_view};

    ghost Value = { List ReportView };

    ghost coded = { Prim.hlevel (codes, t.the_row.coded, f.the_row.coded) };

    ghost view = { λ r. joined (map (session_view (link_view L.Link)) r.sessions.items) r.passes.items };

    ghost invariant = { λ r. length r.sessions.items ≡ length r.passes.items };
}
