// Whole inputs with the line that is written of each, behind `+` what is wrong with those that are refused, and what faults of the source and of
// the sink come to.
use crate::runs::{Streams, comes_to, pieces, play, play_faults, words_of};
use std::alloc::{AllocError, Global};
use std::net::{Net, TcpListener, TcpStream};
use std::process::Abort;
use std::rt::Clock;
use std::sync::Wait;
use std::thread::Threads;

const ALLOWED: &str =
    "nexus check 1|subject alice|label alice says ok|goal alice says ok|proof 1|1 label : alice says ok|end|";

// Inputs of `check`; of each all is read.
const CHECKS: &str =
    "nexus check 1|subject alice|label alice says ok|goal alice says ok|proof 1|1 label : alice says ok|end| -> 0 none:allowed|
 -> 3 none:refused line 1|+line 1, byte 1: EndOfInput|
nexus check 1|subject alice|goal alice says ok|proof 1|1 label : alice says ok|end| -> 1 none:denied LabelMissing 1|
nexus check 1|subject a|label a says (p => q)|label a says p|goal a says q|proof 1|1 label : a says (p => q)|2 label : a says p|\
    3 deduce 1 2 : a says q|end| -> 0 none:allowed|
nexus check 1|subject a|label a says (p => q)|label a says p|goal a says q|proof 1|1 label : a says (p => q)|2 label : a says p|\
    3 deduce 2 1 : a says q|end| -> 1 none:denied Line 3 WrongShape|
nexus check 1|subject bob|label fs says ntp speaksfor fs on TimeNow|yes ntp says Load < 5|goal fs says Load < 5|proof 1|\
    1 label : fs says ntp speaksfor fs on TimeNow|2 handoff_on 1 : ntp speaksfor fs on TimeNow|3 ask : ntp says Load < 5|\
    4 sf_on_e 2 3 : fs says Load < 5|end| -> 1 none:denied Line 4 OutOfScope|
nexus check 1|subject bob|goal true|proof 1|1 hyp : p(?x) and true|2 and_r 1 : true|3 forall_i 2 : forall ?x : true|end| -> 1 none:denied Line 3 NotFresh|
nexus check 1|subject bob|goal true|proof 1|1 hyp : forall ?x : exists ?y : p(?x, ?y)|2 forall_e 1 [?y] : exists ?y : p(?y, ?y)|\
    end| -> 1 none:denied Line 2 Capture|
nexus check 1|subject bob|goal ok|proof 1|1 hyp : ok|end| -> 1 none:denied Line 1 StillOpen|
nexus check 1|subject bob|goal ntp says ok|proof 1|1 ask : ntp says ok|end| -> 1 none:denied AuthorityNo 1|
nexus check 1|subject bob|goal ?subject says ok|proof 1|1 label : bob says ok| -> 3 none:refused line 6|+line 6, byte 1: NoEnd|
nexus check 2|subject a|goal ok|proof 1|1 hyp : ok|end| -> 3 none:refused line 1|+line 1, byte 1: BadLine|
nexus check 1|subject a|label a says|goal ok|proof 1|1 hyp : ok|end| -> 3 none:refused line 3|+line 3, byte 13: Unexpected|
nexus check 1|subject a|label ok|goal ok|proof 1|1 hyp : ok|end| -> 3 none:refused line 3|+line 3, byte 1: BadLine|
nexus check 1|subject a|yes ok and|goal ok|proof 1|1 hyp : ok|end| -> 3 none:refused line 3|+line 3, byte 11: Unexpected|
nexus check 1|subject a|goal p(|proof 1|1 hyp : ok|end| -> 3 none:refused line 3|+line 3, byte 8: Unexpected|
nexus check 1|subject a|goal p ?1|proof 1|1 hyp : ok|end| -> 3 none:refused line 3|+line 3, byte 8: BadName|
nexus check 1|subject a|label p 1a|goal ok|proof 1|1 hyp : ok|end| -> 3 none:refused line 3|+line 3, byte 9: BadNumber|
nexus check 1|subject a|yes p \"q|goal ok|proof 1|1 hyp : ok|end| -> 3 none:refused line 3|+line 3, byte 7: BadText|
nexus check 1|subject a|goal ok| -> 3 none:refused line 4|+line 4, byte 1: BadHeader|
nexus check 1|subject a|goal ok|proof 1 -> 3 none:refused line 5|+line 5, byte 1: BadLine|
nexus check 1|subject a|goal ok|proof 3|1 hyp : ok|end| -> 3 none:refused line 4|+line 4, byte 1: BadHeader|
nexus check 1|subject a|goal ok|proof 1 ; 1 hyp : ok ; 2 hyp : ok and|end| -> 3 none:refused line 4|+line 4, byte 38: Unexpected|
nexus check 1|subject a|goal ok|proof 1|1 hyp : ok|3 hyp : ok|end| -> 3 none:refused line 6|+line 6, byte 1: BadNumber|
nexus check 1|subject a|goal ok|proof 1|1 hyp : ok|end|more| -> 3 none:refused line 7|+line 7, byte 1: After|";

#[test]
fn inputs_come_to_their_outcomes(rt: HostRuntime) -> Result<(), AllocError> {
    play(&rt, rt.alloc(), &["check"], pieces(7, 3), CHECKS)
}

// The numbers of the read and of the write that fail, and what the run comes to.
const FAULTS: [(u64, u64, &str); 3] = [(2, 0, "4 some:"), (0, 5, "5 none:allo"), (0, 1, "5 none:")];

#[test]
fn faults_end_the_program(rt: HostRuntime) -> Result<(), AllocError> {
    play_faults(&rt, rt.alloc(), &["check"], ALLOWED, &FAULTS)
}

// What an owner assumes, and a goal of which nothing can come.
const SAFE: &str =
    "nexus trust 1|subject bob|label fs says may(bob)|label fs says ntp speaksfor fs on TimeNow|untrusted ntp|loose TimeNow|fact may(bob)|\
    goal fs says may(eve)|end|";

const TRUSTS: &str =
    "nexus trust 1|subject bob|label fs says may(bob)|label fs says ntp speaksfor fs on TimeNow|untrusted ntp|loose TimeNow|fact may(bob)|\
    goal fs says may(eve)|end| -> 0 none:safe|
nexus trust 1|subject bob|label fs says ntp speaksfor fs|untrusted ntp|goal fs says may(eve)|end| -> 1 none:label 1|
nexus trust 1|subject bob|untrusted ntp|goal ntp says may(?subject)|end| -> 1 none:goal|
nexus trust 1|subject bob|fact may(?x)|goal fs says may(eve)|end| -> 3 none:refused line 3|+line 3, byte 1: BadLine|
nexus trust 1|subject bob|fact may(|goal fs says may(eve)|end| -> 3 none:refused line 3|+line 3, byte 10: Unexpected|
nexus trust 1|subject bob|untrusted fs.\"x|goal fs says may(eve)|end| -> 3 none:refused line 3|+line 3, byte 14: BadText|
nexus trust 1|subject bob|untrusted ?x|goal fs says may(eve)|end| -> 3 none:refused line 3|+line 3, byte 1: BadLine|";

#[test]
fn questions_of_trust_are_answered(rt: HostRuntime) -> Result<(), AllocError> {
    play(&rt, rt.alloc(), &["trust"], pieces(7, 3), TRUSTS)
}

const TRUST_FAULTS: [(u64, u64, &str); 2] = [(2, 0, "4 some:"), (0, 3, "5 none:sa")];

#[test]
fn faults_end_a_question_of_trust(rt: HostRuntime) -> Result<(), AllocError> {
    play_faults(&rt, rt.alloc(), &["trust"], SAFE, &TRUST_FAULTS)
}

// The first has delegations by which what bob says counts as said by dave.
const CHAINS: &str =
    "nexus prove 1|subject bob|label bob says ok|label carol says bob speaksfor carol|label dave says carol speaksfor dave on ok|\
    goal dave says ok|end| -> 0 none:proof 2 ; 1 label : bob says ok ; 2 label : carol says bob speaksfor carol ; 3 handoff 2 : bob speaksfor carol ; 4 sf_e 3 1 : carol says ok ; 5 label : dave says carol speaksfor dave on ok ; 6 handoff_on 5 : carol speaksfor dave on ok ; 7 sf_on_e 6 4 : dave says ok ; end|
nexus prove 1|subject bob|label bob says ok|label dave says carol speaksfor dave on ok|goal dave says ok|end| -> 1 none:no chain|
nexus prove 1|subject bob|label bob says ok|goal ?subject.x says ok|\
    end -> 0 none:proof 2 ; 1 label : bob says ok ; 2 sf_sub : bob speaksfor bob.x ; 3 sf_e 2 1 : bob.x says ok ; end|
nexus prove 1|subject bob|label bob says ok|goal true|end| -> 3 none:refused line 4|+line 4, byte 1: BadLine|
nexus prove 1|subject bob|label bob says|goal bob says ok|end| -> 3 none:refused line 3|+line 3, byte 15: Unexpected|";

#[test]
fn chains_are_found(rt: HostRuntime) -> Result<(), AllocError> {
    play(&rt, rt.alloc(), &["prove"], pieces(7, 3), CHAINS)
}

// A policy whose journal gives a label and takes it away, and one whose goal an authority decides, each with records of its calls; and
// inputs that have not the form.
const AUDITS: &str =
    "nexus audit 1|nexus 2|principal alice pa|1 alice object f|1 alice goal read f : alice says ok|1 alice say alice : ok|\
    1 alice proof read f : proof 2 ; 1 label : alice says ok ; end|1 alice delete 3|end|\
    4 alice read f - : allowed|5 alice read f - : denied LabelMissing 1|1 alice read f - : denied GoalUnset|\
    0 alice read f - : refused NoSuchObject|end| -> 0 none:audited 4|
nexus audit 1|nexus 2|principal alice pa|1 alice object f|1 alice goal read f : alice says ok|1 alice say alice : ok|\
    1 alice proof read f : proof 2 ; 1 label : alice says ok ; end|1 alice delete 3|end|\
    5 alice read f - : allowed|1 alice read f - : allowed|4 alice read f - : allowed|end| -> 1 none:wrong record 1|
nexus audit 1|nexus 2|principal alice pa|1 alice object f|1 alice goal read f : alice says ok|1 alice say alice : ok|\
    1 alice proof read f : proof 2 ; 1 label : alice says ok ; end|1 alice delete 3|end|\
    6 alice read f - : allowed|end| -> 3 none:refused line 10|+line 10, byte 1: BadLine|
nexus audit 1|nexus 2|principal alice pa|authority 0 clock|1 alice object f|1 alice bind alice.c 0|1 alice goal read f : alice.c says ok|\
    1 alice proof read f : proof 2 ; 1 ask : alice.c says ok ; end|end|\
    4 alice read f ? : allowed|4 alice read f y : allowed|4 alice read f n : denied AuthorityNo 1|4 alice read f ? : denied AuthorityNo 1|\
    4 alice read f - : down 1|4 alice read f ? : down 1|1 alice read f ? : denied GoalUnset|\
    0 alice read f ? : refused NoSuchObject|end| -> 0 none:audited 8|
nexus audit 1|nexus 2|principal alice pa|authority 0 clock|1 alice object f|1 alice bind alice.c 0|1 alice goal read f : alice.c says ok|\
    1 alice proof read f : proof 2 ; 1 ask : alice.c says ok ; end|end|4 alice read f - : allowed|end -> 1 none:wrong record 1|
nexus audit 1|nexus 2|principal alice pa|authority 0 clock|1 alice object f|1 alice bind alice.c 0|1 alice goal read f : alice.c says ok|\
    1 alice proof read f : proof 2 ; 1 ask : alice.c says ok ; end|end|3 alice read f ? : down 1|end| -> 1 none:wrong record 1|
nexus audit 1|nexus 2|principal alice pa|end|end| -> 0 none:audited 0|
nexus audit 1|nexus 2|principal alice pa|1 alice object f| -> 3 none:refused line 5|+line 5, byte 1: EndOfInput|
nexus audit 1|nexus 2|principal alice pa|1 alice object f|1 alice delete 7|end|end| -> 3 none:refused line 5|+line 5, byte 1: NoSuchLabel|
nexus audit 1|nexus 2|principal alice pa|end|0 alice read f yyyyyyyyyyyyyyyyy : allowed|end| -> 3 none:refused line 5|+line 5, byte 1: BadLine|
nexus audit 1|nexus 2|principal alice pa|end|0 bob read f - : allowed|end| -> 3 none:refused line 5|+line 5, byte 1: BadLine|
nexus audit 1|nexus 2|principal alice pa|end|0 alice not f - : allowed|end| -> 3 none:refused line 5|+line 5, byte 1: BadLine|
nexus audit 1|nexus 2|principal alice pa|end|0 alice read f - : denied GoalUnset 1|end| -> 3 none:refused line 5|+line 5, byte 1: BadLine|
nexus audit 1|nexus 2|principal alice pa|end|0 alice read f - : down 0|end| -> 3 none:refused line 5|+line 5, byte 1: BadLine|
nexus audit 1|nexus 2|principal alice pa|end|0 alice read f - : refused NoSuchObject| -> 3 none:refused line 6|+line 6, byte 1: EndOfInput|
nexus 2|principal alice pa|end|end| -> 3 none:refused line 1|+line 1, byte 1: BadLine|";

#[test]
fn records_are_audited(rt: HostRuntime) -> Result<(), AllocError> {
    play(&rt, rt.alloc(), &["audit"], pieces(7, 3), AUDITS)
}

// A policy in which alice says one label, and what else she comes to hold; inputs that are no policy.
const EXPORTS: &str =
    "nexus 2|principal alice pa|1 alice object f|1 alice goal read f : alice says ok|1 alice say alice : ok|\
    1 alice proof read f : proof 2 ; 1 label : alice says ok ; end|end| -> 0 none:nexus bundle 1|label alice says ok|end|
nexus 2|principal alice pa|principal bob pb|1 bob say bob : p(1)|1 bob say bob : q|1 bob transfer 2 alice|1 alice say alice : p  and (q)|end| -> 0 none:nexus bundle 1|label bob says q|label alice says (p and q)|end|
nexus 2|principal alice pa|1 alice say alice : ok|1 alice delete 1|end| -> 0 none:nexus bundle 1|end|
nexus 2|principal bob pb|end| -> 1 none:no principal|
nexus 2|principal alice pa|1 alice say alice : ok| -> 3 none:refused line 4|+line 4, byte 1: EndOfInput|
nexus 2|principal alice pa|1 alice say bob : ok|end| -> 3 none:refused line 3|+line 3, byte 1: NotYourPrincipal|";

#[test]
fn labels_are_exported(rt: HostRuntime) -> Result<(), AllocError> {
    play(&rt, rt.alloc(), &["export", "alice"], pieces(7, 3), EXPORTS)
}

// A policy whose goal, proof, label and binding were changed, one that nothing changes, and inputs that are no policy. Behind `+` stand the old
// and the new numbers of labels.
const COMPACTED: &str =
    "nexus 2|principal fs pf|principal bob pb|1 fs object f|1 fs goal read f : true|1 fs goal read f : fs says may(?subject)|\
    1 fs say fs : may(eve)|1 fs say fs : may(bob)|1 fs delete 4|1 fs transfer 5 bob|2 bob transfer 5 fs|1 fs transfer 5 bob|\
    2 bob proof read f : proof 2 ; 1 true_i : true ; end|2 bob noproof read f|\
    2 bob proof read f : proof 2 ; 1 label : fs says may(bob) ; end|end| -> 0 none:nexus 2|principal fs pf|principal bob pb|\
    1 fs object f|1 fs goal read f : fs says may(?subject)|1 fs say fs : may(bob)|1 fs transfer 3 bob|2 bob transfer 3 fs|\
    1 fs transfer 3 bob|2 bob proof read f : proof 2 ; 1 label : fs says may(bob) ; end|end|+5 3|
nexus 2|principal fs pf|authority 0 clock|1 fs bind fs 0|1 fs bind fs.a 0|1 fs unbind fs|1 fs say fs : a|1 fs say fs : b|1 fs delete 4|1 fs say fs : c|end| -> \
    0 none:nexus 2|principal fs pf|authority 0 clock|1 fs bind fs.a 0|1 fs say fs : b|1 fs say fs : c|end|+5 2|7 3|
nexus 2|principal fs pf|1 fs object f|end| -> 0 none:nexus 2|principal fs pf|1 fs object f|end|
nexus 2|principal fs pf|1 fs object f| -> 3 none:refused line 4|+line 4, byte 1: EndOfInput|
nexus 2|principal fs pf|1 bob object f|end| -> 3 none:refused line 3|+line 3, byte 1: BadLine|";

// A policy of one label, where the first write of a record fails, and its second.
const LABELLED: &str = "nexus 2|principal fs pf|1 fs say fs : a|end|";

const RECORD_FAULTS: [(u64, &str); 2] = [
    (1, "5 none:nexus 2|principal fs pf|1 fs say fs : a|end|"),
    (2, "5 none:nexus 2|principal fs pf|1 fs say fs : a|end|+1 1"),
];

const COMPACT_FAULTS: [(u64, u64, &str); 2] = [(2, 0, "4 some:"), (0, 5, "5 none:nexu")];

#[test]
fn policies_are_compacted(rt: HostRuntime) -> Result<(), AllocError> {
    let alloc = rt.alloc();
    play(&rt, alloc, &["compact"], pieces(7, 3), COMPACTED)?;
    play_faults(&rt, alloc, &["compact"], LABELLED, &COMPACT_FAULTS)?;
    for (record_fails, due) in RECORD_FAULTS {
        let streams = Streams {
            record_fails,
            ..pieces(7, 3)
        };
        comes_to(&rt, alloc, &["compact"], "", LABELLED, streams, due)?;
    }
    Ok(())
}

// What commands come to whose text could not be synced, and one that syncs nothing.
const UNSYNCED: [(&str, &str); 4] = [
    (
        "compact",
        "5 none:nexus 2|principal fs pf|1 fs say fs : a|end|+1 1|",
    ),
    (
        "recover",
        "5 none:nexus 2|principal fs pf|1 fs say fs : a|end|",
    ),
    (
        "script",
        "5 none:nexus 2|principal fs pf|1 fs say fs : a|end|",
    ),
    ("audit", "3 none:refused line 1|+line 1, byte 1: BadLine|"),
];

#[test]
fn policies_that_were_written_are_synced(rt: HostRuntime) -> Result<(), AllocError> {
    let alloc = rt.alloc();
    for (command, due) in UNSYNCED {
        let streams = Streams {
            sync_fails: 1,
            ..pieces(7, 3)
        };
        comes_to(&rt, alloc, &[command], "", LABELLED, streams, due)?;
    }
    Ok(())
}

// Each row is words, ` -> ` and what comes of a run with them.
fn play_words<R>(rt: &R, alloc: Global, rows: &str) -> Result<(), AllocError>
where
    R: Net<Listener = TcpListener, Stream = TcpStream> + Clock + Wait + Threads + Sync + Abort,
{
    for row in rows.lines() {
        let (words, due) = row.split_once(" -> ").unwrap_or(("", "two columns"));
        let words = words_of(alloc, words)?;
        comes_to(rt, alloc, words.as_slice(), "", ALLOWED, pieces(7, 3), due)?;
    }
    Ok(())
}

// The words of a load, and its line. That of a thousand steps was worked out by a program written apart from this one.
const LOADS: &str = "core 0 1 -> 0 all:steps 1 idle 0 writes 0 allowed 0 denied 0 length 4|
core 18446744073709551615 0 -> 0 all:steps 0 idle 0 writes 0 allowed 0 denied 0 length 4|
drill 0 1 1 -> 0 all:workers 1 requests 8 allowed 1 denied 0 length 6|
core 7 1000 -> 0 all:steps 1000 idle 869 writes 12 allowed 10 denied 11 length 16|";

#[test]
fn loads_are_taken(rt: HostRuntime) -> Result<(), AllocError> {
    let alloc = rt.alloc();
    play_words(&rt, alloc, LOADS)?;
    let cut = [(0, 5, "5 all:step")];
    play_faults(&rt, alloc, &["core", "0", "1"], ALLOWED, &cut)
}

// Words that are those of no command.
const OTHER_WORDS: &str = "chec -> 2 all:
check check -> 2 all:
script script -> 2 all:
check script -> 2 all:
trust trust -> 2 all:
audit audit -> 2 all:
compact compact -> 2 all:
export -> 2 all:
export says -> 2 all:
export alice bob -> 2 all:
drill 0 0 1 -> 2 all:
drill 0 65 1 -> 2 all:
drill 0 1 0 -> 2 all:
drill 0 1 4001 -> 2 all:
drill 0 1 -> 2 all:
check 0 1 -> 2 all:
core -> 2 all:
core 0 -> 2 all:
core 0 01 -> 2 all:
core 0 1000001 -> 2 all:
core 18446744073709551616 1 -> 2 all:
core 0 1 2 -> 2 all:";

#[test]
fn other_words_are_not_run(rt: HostRuntime) -> Result<(), AllocError> {
    let alloc = rt.alloc();
    play_words(&rt, alloc, OTHER_WORDS)?;
    let none: [(u64, u64, &str); 1] = [(0, 0, "2 all:")];
    play_faults(&rt, alloc, &[], ALLOWED, &none)?;
    play_faults(&rt, alloc, &["core", "0", ""], ALLOWED, &none)
}
