// Inputs, with the line that is written of each or the line that is refused. What is due is worked out by hand from
// `docs/FORMATS.md`, "The input of `prove`", and `docs/LOGIC.md`, "Chains of delegations".
use crate::rows::{Call, play, text_of};
use proof_lines::Proof;
use prove_form::{ProveError, found_line, prove_of, read_prove};
use std::alloc::{AllocError, Global};

// The inputs of these tests are shorter.
const SHORT: usize = 1 << 20;

struct Proved;

impl Call for Proved {
    fn told(alloc: Global, input: &str) -> Result<String, AllocError> {
        if input.len() > SHORT {
            return Err(AllocError);
        }
        match prove_of(alloc, input.as_bytes()) {
            Ok(found) => told_of_found(alloc, &found),
            Err(error) => refused(alloc, error),
        }
    }
}

fn told_of_found(alloc: Global, found: &Option<Proof>) -> Result<String, AllocError> {
    let line = found_line(alloc, found)?;
    String::from_str(alloc, text_of(line.as_slice()))
}

fn refused(alloc: Global, error: ProveError) -> Result<String, AllocError> {
    match error {
        ProveError::Wrong { line } => format!(in alloc; "line {line}"),
        ProveError::Memory => Err(AllocError),
    }
}

// The subject takes its place in the goal, as the one who says it too. Blanks belong to a formula's text.
const FOUND: &str =
    "nexus prove 1|subject bob|label bob says ok|label carol says bob speaksfor carol|label dave says carol speaksfor dave on ok|goal dave says ok|end| -> proof 2 ; 1 label : bob says ok ; 2 label : carol says bob speaksfor carol ; 3 handoff 2 : bob speaksfor carol ; 4 sf_e 3 1 : carol says ok ; 5 label : dave says carol speaksfor dave on ok ; 6 handoff_on 5 : carol speaksfor dave on ok ; 7 sf_on_e 6 4 : dave says ok ; end|
nexus prove 1|subject bob|label bob says ok|label dave says carol speaksfor dave on ok|goal dave says ok|end| -> no chain|
nexus prove 1|subject bob|label bob says ok|goal bob.x says ok|end -> proof 2 ; 1 label : bob says ok ; 2 sf_sub : bob speaksfor bob.x ; 3 sf_e 2 1 : bob.x says ok ; end|
nexus prove 1|subject eve|label fs says may(eve)|label fs says may(bob)|goal  fs says may( ?subject ) |end| -> proof 2 ; 1 label : fs says may(eve) ; end|
nexus prove 1|subject eve|label fs says may(bob)|goal fs says may(?subject)|end| -> no chain|
nexus prove 1|subject eve|label eve says ok|goal ?subject says ok|end| -> proof 2 ; 1 label : eve says ok ; end|
nexus prove 1|subject eve|goal eve says ok|end| -> no chain|";

#[test]
fn found_proofs(rt: HostRuntime) {
    play::<Proved>(&rt, rt.alloc(), FOUND);
}

const REFUSED: &str = " -> line 1
nexus prove 2|subject bob|goal bob says ok|end| -> line 1
nexus prove 1 |subject bob|goal bob says ok|end| -> line 1
nexus prove 1 -> line 2
nexus prove 1|subject says|goal bob says ok|end| -> line 2
nexus prove 1|subject bob |goal bob says ok|end| -> line 2
nexus prove 1|subject bob| -> line 3
nexus prove 1|subject bob|label ok|goal bob says ok|end| -> line 3
nexus prove 1|subject bob|label bob says may(?subject)|goal bob says ok|end| -> line 3
nexus prove 1|subject bob|goal ok|end| -> line 3
nexus prove 1|subject bob|goal bob speaksfor eve|end| -> line 3
nexus prove 1|subject bob|goal not bob says ok|end| -> line 3
nexus prove 1|subject bob|goal bob says may(?x)|end| -> line 3
nexus prove 1|subject bob|yes bob says ok|end| -> line 3
nexus prove 1|subject bob|end| -> line 3
nexus prove 1|subject bob|goal bob says ok| -> line 4
nexus prove 1|subject bob|goal bob says ok|label bob says ok|end| -> line 4
nexus prove 1|subject bob|goal bob says ok|end | -> line 4
nexus prove 1|subject bob|goal bob says ok|end|| -> line 5";

#[test]
fn refused_lines(rt: HostRuntime) {
    play::<Proved>(&rt, rt.alloc(), REFUSED);
}

// How many labels an input has.
struct Labels;

impl Call for Labels {
    fn told(alloc: Global, input: &str) -> Result<String, AllocError> {
        if input.len() > SHORT {
            return Err(AllocError);
        }
        match read_prove(alloc, input.as_bytes()) {
            Ok(read) => format!(in alloc; "{} labels", read.givens.labels.len()),
            Err(error) => refused(alloc, error),
        }
    }
}

// 256 labels are read, and one more is refused at itself.
const READ: &str =
    "nexus prove 1|subject bob|{256*label bob says ok|}goal bob says ok|end| -> 256 labels";

const TOO_MANY: &str =
    "nexus prove 1|subject bob|{257*label bob says ok|}goal bob says ok|end| -> line 259";

#[test]
fn at_most_256_labels(rt: HostRuntime) {
    play::<Labels>(&rt, rt.alloc(), READ);
    play::<Proved>(&rt, rt.alloc(), TOO_MANY);
}
