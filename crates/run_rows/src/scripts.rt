// Scripts with all that is written of each, and what faults of the panel, the source and the sink come to.
use crate::runs::{Streams, comes_to, pieces, play};
use std::alloc::{AllocError, Global};
use std::net::{Net, TcpListener, TcpStream};
use std::process::Abort;
use std::rt::Clock;
use std::sync::Wait;
use std::thread::Threads;

// A delegation on a predicate, and an authority that is asked for it and says yes and then no: the second call is answered anew.
const DELEGATED: &str =
    "nexus 1|principal fs pf|principal bob pb|principal ntp pn|authority 1 mem|end|1 hello fs pf|1 object f|\
    1 goal read f : fs says TimeNow < 20110319|1 say fs : ntp speaksfor fs on TimeNow|1 transfer 3 bob|2 hello ntp pn|2 bind ntp 1|\
    3 hello bob pb|\
    3 proof read f : proof 1 ; 1 label : fs says ntp speaksfor fs on TimeNow ; 2 handoff_on 1 : ntp speaksfor fs on TimeNow ; 3 ask : ntp says TimeNow < 20110319 ; 4 sf_on_e 2 3 : fs says TimeNow < 20110319 ; end|\
    3 call read f 0|3 call read f 0|";

const DELEGATED_DUE: &str =
    "0 none:welcome 1 0|done 1 0|done 2 0|done 3 3|done 4 0|welcome 2 4|done 5 0|welcome 3 5|done 6 0|\
    allowed 6 0 0|denied 6 AuthorityNo 3|nexus 2|principal fs pf|principal bob pb|principal ntp pn|authority 1 mem|1 fs object f|\
    1 fs goal read f : fs says TimeNow < 20110319|1 fs say fs : ntp speaksfor fs on TimeNow|1 fs transfer 3 bob|2 ntp bind ntp 1|\
    3 bob proof read f : proof 2 ; 1 label : fs says ntp speaksfor fs on TimeNow ; 2 handoff_on 1 : ntp speaksfor fs on TimeNow ; 3 ask : ntp says TimeNow < 20110319 ; 4 sf_on_e 2 3 : fs says TimeNow < 20110319 ; end|\
    end|";

// The answers of its authorities, its input, and what comes of it. Refusals come in their order; two asks, one of which is not answered; sessions are numbered behind those of the policy, and the
// last line feed may be missing; each cause and each refusal by its name, and the second session has a principal of its own; a goal that names the
// caller; and no request at all.
const SCRIPTS: &str =
    " nexus 2|principal alice pa|principal bob pb|end|1 hello alice pa|1 object f|2 hello bob pb|2 goal read f : true|2 goal read f : (|\
    1 goal read f : (| -> 0 none:welcome 1 0|done 1 0|welcome 2 1|refused 1 NotOwner|refused 1 NotOwner|refused 1 BadFormula|nexus 2|\
    principal alice pa|principal bob pb|1 alice object f|end|
ydyy nexus 2|principal ntp pn|authority 1 mem|end|1 hello ntp pn|1 object f|1 goal read f : ntp says a and ntp says b|1 bind ntp 1|\
    1 proof read f : proof 1 ; 1 ask : ntp says a ; 2 ask : ntp says b ; 3 and_i 1 2 : ntp says a and ntp says b ; end|1 call read f 0|\
    1 call read f 0|1 unbind ntp|1 call read f 0| -> 0 none:welcome 1 0|done 1 0|done 2 0|done 3 0|done 4 0|down 4 2|allowed 4 0 0|done 5 0|\
    denied 5 NotBound 1|nexus 2|principal ntp pn|authority 1 mem|1 ntp object f|1 ntp goal read f : ntp says a and ntp says b|1 ntp bind ntp 1|\
    1 ntp proof read f : proof 2 ; 1 ask : ntp says a ; 2 ask : ntp says b ; 3 and_i 1 2 : ntp says a and ntp says b ; end|1 ntp unbind ntp|end|
 nexus 1|principal alice pa|7 alice object f|end|1 hello alice pa|1 object f|1 object g -> 0 none:welcome 8 1|refused 1 NameTaken|done 2 1|\
    nexus 2|principal alice pa|7 alice object f|8 alice object g|end|
 nexus 2|principal alice pa|end|1 hello alice pa|1 call read f 0|1 object f|1 call read f 0|1 goal read f : true|1 call read f 0|\
    1 nogoal read f|1 nogoal read f|1 noproof read f|1 unbind alice|1 bind alice 3|1 say bob : ok|1 transfer 1 bob|2 object g|2 hello alice xx|\
    2 hello alice pa|2 hello alice pa| -> 0 none:welcome 1 0|refused 0 NoSuchObject|done 1 0|denied 1 GoalUnset|done 2 0|denied 2 NoProof|\
    done 3 0|refused 3 NoGoal|refused 3 NoSuchProof|refused 3 NoBinding|refused 3 BadPort|refused 3 NotYourPrincipal|refused 3 NoSuchPrincipal|\
    refused 3 NotOpen|refused 3 BadSecret|welcome 2 3|refused 3 AlreadyOpen|nexus 2|principal alice pa|1 alice object f|\
    1 alice goal read f : true|1 alice nogoal read f|end|
 nexus 2|principal fs pf|principal bob pb|end|1 hello fs pf|1 object f|1 goal read f : fs says may(?subject)|1 say fs : may(bob)|\
    1 transfer 3 bob|2 hello bob pb|2 proof read f : proof 1 ; 1 label : fs says may(bob) ; end|2 call read f 0|\
    1 proof read f : proof 1 ; 1 label : fs says may(bob) ; end|1 call read f 0| -> 0 none:welcome 1 0|done 1 0|done 2 0|done 3 3|done 4 0|\
    welcome 2 4|done 5 0|allowed 5 0 0|done 6 1|denied 6 Line 1 NotGoal|nexus 2|principal fs pf|principal bob pb|1 fs object f|\
    1 fs goal read f : fs says may(?subject)|1 fs say fs : may(bob)|1 fs transfer 3 bob|\
    2 bob proof read f : proof 2 ; 1 label : fs says may(bob) ; end|1 fs proof read f : proof 2 ; 1 label : fs says may(bob) ; end|end|
 nexus 1|end -> 0 none:nexus 2|end|";

// Inputs that are refused, each with the number of its lowest wrong line, and what is wrong with it.
const REFUSED: &str = " -> 3 none:refused line 1|+line 1, byte 1: EndOfInput|
nexus 2|principal alice pa| -> 3 none:refused line 3|+line 3, byte 1: EndOfInput|
nexus 2|end|| -> 3 none:refused line 3|+line 3, byte 1: BadLine|
nexus 2|end|hello alice pa| -> 3 none:refused line 3|+line 3, byte 1: BadLine|
nexus 2|end|0 hello alice pa| -> 3 none:refused line 3|+line 3, byte 1: BadLine|
nexus 2|end|65 hello alice pa| -> 3 none:refused line 3|+line 3, byte 1: BadLine|
nexus 2|end|01 hello alice pa| -> 3 none:refused line 3|+line 3, byte 1: BadLine|
nexus 2|end|64 hello alice pa|1 hello says pa|x| -> 3 none:refused line 4|+line 4, byte 1: BadLine|
nexus 2|principal alice pa|1 hello alice pa|end| -> 3 none:refused line 3|+line 3, byte 1: BadLine|
nexus 2|principal alice pa|18446744073709551551 alice object f|end| -> 3 none:refused line 3|+line 3, byte 1: BadLine|
nexus 2|principal alice pa|1 alice object f|1 alice object f|18446744073709551551 alice object f|end| -> 3 none:refused line 4|+line 4, byte 1: NameTaken|
nexus 2|principal alice pa|18446744073709551550 alice object f|end|x| -> 3 none:refused line 5|+line 5, byte 1: BadLine|";

// Each row is the answers, a space, the input, ` -> ` and what is due.
fn play_scripts<R>(rt: &R, alloc: Global, rows: &str) -> Result<(), AllocError>
where
    R: Net<Listener = TcpListener, Stream = TcpStream> + Clock + Wait + Threads + Sync + Abort,
{
    for row in rows.lines() {
        let (script, due) = row.split_once(" -> ").unwrap_or(("", "two columns"));
        let (answers, input) = script.split_once(' ').unwrap_or(("", ""));
        comes_to(rt, alloc, &["script"], answers, input, pieces(100, 11), due)?;
    }
    Ok(())
}

#[test]
fn scripts_are_answered(rt: HostRuntime) -> Result<(), AllocError> {
    let alloc = rt.alloc();
    play_scripts(&rt, alloc, SCRIPTS)?;
    comes_to(
        &rt,
        alloc,
        &["script"],
        "yn",
        DELEGATED,
        pieces(100, 11),
        DELEGATED_DUE,
    )
}

#[test]
fn wrong_inputs_are_refused_at_their_line(rt: HostRuntime) -> Result<(), AllocError> {
    play(&rt, rt.alloc(), &["script"], pieces(100, 11), REFUSED)
}

// The numbers of the read, the write and the reach that fail, and what the run comes to. At the second two pieces of 11 bytes were taken.
const FAULTS: [(u64, u64, u64, &str); 3] = [
    (2, 0, 0, "4 some:"),
    (0, 3, 0, "5 none:welcome 1 0|done 1 0|d"),
    (0, 0, 1, "8 none:"),
];

#[test]
fn faults_end_a_script(rt: HostRuntime) -> Result<(), AllocError> {
    for (read_fails, write_fails, reach_fails, due) in FAULTS {
        let streams = Streams {
            read_fails,
            write_fails,
            reach_fails,
            ..pieces(100, 11)
        };
        comes_to(&rt, rt.alloc(), &["script"], "yn", DELEGATED, streams, due)?;
    }
    Ok(())
}
