// Inputs, with the line that is written of each or the line that is refused. What is due is worked out by hand from
// `docs/FORMATS.md`, "The input of `trust`", and `docs/LOGIC.md`, "What the untrusted can reach".
use crate::rows::{Call, play};
use std::alloc::{AllocError, Global};
use trust_form::{TrustError, TrustForm, read_trust, trust_line, trust_of};

// The inputs of these tests are shorter.
const SHORT: usize = 1 << 20;

struct Trusted;

impl Call for Trusted {
    fn told(alloc: Global, input: &str) -> Result<String, AllocError> {
        if input.len() > SHORT {
            return Err(AllocError);
        }
        match trust_of(alloc, input.as_bytes()) {
            Ok(answer) => trust_line(alloc, answer),
            Err(error) => refused(alloc, error),
        }
    }
}

fn refused(alloc: Global, error: TrustError) -> Result<String, AllocError> {
    match error {
        TrustError::Wrong { line } => format!(in alloc; "line {line}"),
        TrustError::Memory => Err(AllocError),
    }
}

// The subject takes its place in the goal, and is no untrusted principal for that. Blanks belong to the text of a formula or a term.
const ANSWERS: &str =
    "nexus trust 1|subject bob|label fs says may(bob)|label fs says ntp speaksfor fs on TimeNow|untrusted ntp|loose TimeNow|fact may(bob)|goal fs says may(eve)|end| -> safe|
nexus trust 1|subject bob|label fs says may(bob)|label fs says ntp speaksfor fs on TimeNow|label fs says ntp speaksfor fs|untrusted ntp|loose TimeNow|fact may(bob)|goal fs says may(eve)|end| -> label 3|
nexus trust 1|subject bob|label fs says may(bob)|label fs says ntp speaksfor fs on TimeNow|untrusted ntp|loose TimeNow|fact may(bob)|goal fs says TimeNow < 5|end| -> goal|
nexus trust 1|subject bob|fact may(bob)|goal fs says may(?subject)|end -> goal|
nexus trust 1|subject eve|fact may(bob)|goal fs says may(?subject)|end -> safe|
nexus trust 1|subject eve|untrusted eve|goal ?subject says no|end -> goal|
nexus trust 1|subject eve|untrusted  fs . disk |goal \t fs.disk.a says no |end -> goal|
nexus trust 1|subject eve|goal false|end| -> safe|";

#[test]
fn answers(rt: HostRuntime) {
    play::<Trusted>(&rt, rt.alloc(), ANSWERS);
}

const REFUSED: &str = " -> line 1
nexus trust 2|subject bob|goal true|end| -> line 1
nexus trust 1 |subject bob|goal true|end| -> line 1
nexus trust 1 -> line 2
nexus trust 1|subject says|goal true|end| -> line 2
nexus trust 1|subject bob |goal true|end| -> line 2
nexus trust 1|subject bob| -> line 3
nexus trust 1|subject bob|subject bob|goal true|end| -> line 3
nexus trust 1|subject bob|label ok|goal true|end| -> line 3
nexus trust 1|subject bob|label fs says may(?subject)|goal true|end| -> line 3
nexus trust 1|subject bob|untrusted ?x|goal true|end| -> line 3
nexus trust 1|subject bob|untrusted a b|goal true|end| -> line 3
nexus trust 1|subject bob|loose a.b|goal true|end| -> line 3
nexus trust 1|subject bob|loose  a|goal true|end| -> line 3
nexus trust 1|subject bob|fact fs says ok|goal true|end| -> line 3
nexus trust 1|subject bob|fact may(?x)|goal true|end| -> line 3
nexus trust 1|subject bob|fact 1 = 1|goal true|end| -> line 3
nexus trust 1|subject bob|untrusted a|label fs says ok|goal true|end| -> line 4
nexus trust 1|subject bob|loose a|untrusted a|goal true|end| -> line 4
nexus trust 1|subject bob|fact a|loose a|goal true|end| -> line 4
nexus trust 1|subject bob|fact a|label fs says ok|goal true|end| -> line 4
nexus trust 1|subject bob|end| -> line 3
nexus trust 1|subject bob|goal may(?x)|end| -> line 3
nexus trust 1|subject bob|goal true| -> line 4
nexus trust 1|subject bob|goal true|fact a|end| -> line 4
nexus trust 1|subject bob|goal true|goal true|end| -> line 4
nexus trust 1|subject bob|goal true|end | -> line 4
nexus trust 1|subject bob|goal true|end|| -> line 5
nexus trust 1|subject bob|goal true|end|end| -> line 5";

#[test]
fn refused_lines(rt: HostRuntime) {
    play::<Trusted>(&rt, rt.alloc(), REFUSED);
}

// How many lines an input has between its subject and its goal.
struct LineCount;

impl Call for LineCount {
    fn told(alloc: Global, input: &str) -> Result<String, AllocError> {
        if input.len() > SHORT {
            return Err(AllocError);
        }
        match read_trust(alloc, input.as_bytes()) {
            Ok(read) => format!(in alloc; "{} lines", lines_of(&read)),
            Err(error) => refused(alloc, error),
        }
    }
}

fn lines_of(read: &TrustForm) -> u64 {
    let givens = &read.givens;
    let (labels, untrusted) = (givens.labels.len() as u64, givens.untrusted.len() as u64);
    let (loose, facts) = (givens.loose.len() as u64, givens.facts.len() as u64);
    labels
        .saturating_add(untrusted)
        .saturating_add(loose)
        .saturating_add(facts)
}

// So many lines of each kind are read, and one more is refused at itself.
const MOST: &str = "nexus trust 1|subject bob|{4096*label fs says ok|}goal true|end| -> 4096 lines
nexus trust 1|subject bob|{64*untrusted eve|}goal true|end| -> 64 lines
nexus trust 1|subject bob|{64*loose may|}goal true|end| -> 64 lines
nexus trust 1|subject bob|{4096*fact may(bob)|}goal true|end| -> 4096 lines";

const TOO_MANY: &str =
    "nexus trust 1|subject bob|{4097*label fs says ok|}goal true|end| -> line 4099
nexus trust 1|subject bob|{65*untrusted eve|}goal true|end| -> line 67
nexus trust 1|subject bob|{65*loose may|}goal true|end| -> line 67
nexus trust 1|subject bob|{4097*fact may(bob)|}goal true|end| -> line 4099";

#[test]
fn limits(rt: HostRuntime) {
    play::<LineCount>(&rt, rt.alloc(), MOST);
    play::<Trusted>(&rt, rt.alloc(), TOO_MANY);
}
