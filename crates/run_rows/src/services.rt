// Services over a door and a panel in memory: what is written, what each session is told, line by line, how it ends, and the status. `days.rt` says how a
// day is written.
use crate::days::{Day, try_day, try_days};
use nx_io::{Gate, Place};
use std::alloc::AllocError;
use std::net::{Net, TcpListener, TcpStream};
use std::rt::Clock;
use std::sync::atomic::{AtomicU64, Ordering};

// A policy of one entry, which is written as it is, two workers and no session.
const POLICY: &str = "words=serve 127.0.0.1:1 2 3
policy=nexus 1|principal alice pa|authority 1 mem|7 alice object f|end|
room=4096
piece=1000
status=0
written=nexus 2|principal alice pa|authority 1 mem|7 alice object f|end|";

#[test]
fn a_service_without_links_writes_its_policy(rt: HostRuntime) -> Result<(), AllocError> {
    try_days(&rt, rt.alloc(), POLICY, "")
}

// A line behind the policy; a number behind which there are not six more; and words of no service.
const REFUSED: &str = "policy=nexus 2|principal alice pa|7 alice object f|end|1 hello alice pa|
status=3
written=refused line 5|
noted=line 5, byte 1: BadLine|

policy=nexus 2|principal alice pa|18446744073709551609 alice object f|end|
status=3
written=refused line 3|
noted=line 3, byte 1: BadLine|

policy=nexus 2|principal alice pa|7 alice object f|7 alice delete 1|end|
status=3
written=refused line 4|
noted=line 4, byte 1: NoSuchLabel|

words=serve 127.0.0.1:1 0 3
status=2
written=

words=serve 127.0.0.1:1 1025 3
status=2
written=

words=serve 127.0.0.1:1 2 3 0
status=2
written=

words=serve 127.0.0.1:1 2 3 86401
status=2
written=

words=serve 127.0.0.1:1 2 3 300 1
status=2
written=

words=serve 127.0.0.1:1 2 3 x
status=2
written=

words=serve -a 2 3
status=2
written=

words=serve help 2 3
status=2
written=

words=serve 127.0.0.1:1 2 65537
status=2
written=";

#[test]
fn inputs_and_words_are_refused(rt: HostRuntime) -> Result<(), AllocError> {
    try_days(&rt, rt.alloc(), REFUSED, POLICY)
}

// At the third a piece of 11 bytes was taken; at the last all was written, and the sync behind it failed.
const FAULTS: &str = "reach=1
status=8
written=

listen=1
status=7
written=

write=2
status=5
written=nexus 2|pri

sync=1
status=5
written=nexus 2|principal alice pa|authority 1 mem|7 alice object f|end|";

#[test]
fn faults_end_a_service(rt: HostRuntime) -> Result<(), AllocError> {
    try_days(&rt, rt.alloc(), FAULTS, POLICY)
}

// A service with a log: what is sent to its keeper, the output being sent nothing. The fifth line is not kept at the third day, and the first one
// not at the fourth.
const LOGGED: &str = "words=serve 127.0.0.1:1 2 3 log keeper:1
keeps=9
status=0
written=
logged=have 1 nexus 2|have 2 principal alice pa|have 3 authority 1 mem|have 4 7 alice object f|

words=serve 127.0.0.1:1 2 3 300 log keeper:1
keeps=9
talks=raw 0000000c010005616c69636500027061\
    0000000405000167
status=0
told=welcome 8 1|done 2 1|closed|
written=
logged=have 1 nexus 2|have 2 principal alice pa|have 3 authority 1 mem|have 4 7 alice object f|put 5 8 alice object g|

words=serve 127.0.0.1:1 2 3 log keeper:1
keeps=4
talks=raw 0000000c010005616c69636500027061\
    0000000405000167\
    0000000405000168
status=5
told=welcome 8 1|refused 1 NotRecorded|refused 1 NotRecorded|closed|
written=
logged=have 1 nexus 2|have 2 principal alice pa|have 3 authority 1 mem|have 4 7 alice object f|put 5 8 alice object g|

words=serve 127.0.0.1:1 2 3 log keeper:1
status=5
written=
logged=have 1 nexus 2|

words=serve 127.0.0.1:1 2 3 log keeper:1
policy=nexus 2|principal alice pa|7 alice object f|end|1 hello alice pa|
keeps=9
status=3
written=refused line 5|
noted=line 5, byte 1: BadLine|

words=serve 127.0.0.1:1 2 3 log
status=2
written=

words=serve 127.0.0.1:1 2 3 log help
status=2
written=

words=serve 127.0.0.1:1 2 3 log -a
status=2
written=

words=serve 127.0.0.1:1 2 3 log keeper:1 records
status=2
written=

words=serve 127.0.0.1:1 2 3 log keeper:1 log keeper:1
status=2
written=";

#[test]
fn the_text_of_a_service_is_kept_by_a_log(rt: HostRuntime) -> Result<(), AllocError> {
    try_days(&rt, rt.alloc(), LOGGED, POLICY)
}

// The most workers, the most sessions, and each bound of the patience.
const PATIENT: &str = "words=serve 127.0.0.1:1 1024 1
status=0
written=nexus 2|principal alice pa|authority 1 mem|7 alice object f|end|

words=serve 127.0.0.1:1 2 65536
status=0
written=nexus 2|principal alice pa|authority 1 mem|7 alice object f|end|

words=serve 127.0.0.1:1 2 3 1
status=0
written=nexus 2|principal alice pa|authority 1 mem|7 alice object f|end|

words=serve 127.0.0.1:1 2 3 86400
status=0
written=nexus 2|principal alice pa|authority 1 mem|7 alice object f|end|";

#[test]
fn words_of_a_service_may_be_at_their_bounds(rt: HostRuntime) -> Result<(), AllocError> {
    try_days(&rt, rt.alloc(), PATIENT, POLICY)
}

// A change whose line was written and could not be synced, and another behind it.
const UNSYNCED: &str = "talks=raw 0000000c010005616c69636500027061\
    0000000405000167\
    0000000405000168
sync=1
status=5
told=welcome 8 1|refused 1 NotRecorded|refused 1 NotRecorded|closed|
written=nexus 2|principal alice pa|authority 1 mem|7 alice object f|8 alice object g|";

#[test]
fn a_change_that_is_not_synced_is_not_recorded(rt: HostRuntime) -> Result<(), AllocError> {
    try_days(&rt, rt.alloc(), UNSYNCED, POLICY)
}

const GROWN: &str = "talks=raw 0000000c010005616c69636500027061\
    0000000405000167
told=welcome 8 1|done 2 1|closed|
written=nexus 2|principal alice pa|authority 1 mem|7 alice object f|8 alice object g|end|";

#[test]
fn a_change_of_a_session_is_written(rt: HostRuntime) -> Result<(), AllocError> {
    try_days(&rt, rt.alloc(), GROWN, POLICY)
}

// One worker, and up to two sessions of alice; nothing fails.
const QUIET: &str = "words=serve mem 1 2
policy=nexus 1|principal alice pa|end|
room=40000
piece=1000
status=0";

// The service of these lines, whose second call is answered by a kept verdict.
const FIRST: &str = "words=serve mem 1 2
policy=nexus 1|principal alice pa|end|
room=40000
piece=1000
talks=hello alice pa|object f|goal read f : alice says ok|say alice : ok|proof read f : proof 1 ; 1 label : alice says ok ; end|\
    call read f 0|call read f 0
status=0
told=welcome 1 0|done 1 0|done 2 0|done 3 3|done 4 0|allowed 4 0 0|allowed 4 1 0|closed|
written=nexus 2|principal alice pa|1 alice object f|1 alice goal read f : alice says ok|1 alice say alice : ok|\
    1 alice proof read f : proof 2 ; 1 label : alice says ok ; end|end|";

const DELETED: &str =
    "talks=hello alice pa|object f|goal read f : alice says ok|say alice : ok|proof read f : proof 1 ; 1 label : alice says ok ; end|\
    call read f 0|call read f 0|delete 3|call read f 0|delete 3
told=welcome 1 0|done 1 0|done 2 0|done 3 3|done 4 0|allowed 4 0 0|allowed 4 1 0|done 5 0|denied 5 LabelMissing 1|refused 5 NoSuchLabel|closed|
written=nexus 2|principal alice pa|1 alice object f|1 alice goal read f : alice says ok|1 alice say alice : ok|\
    1 alice proof read f : proof 2 ; 1 label : alice says ok ; end|1 alice delete 3|end|";

const OTHER: &str =
    "talks=hello alice pa|object f|goal read f : alice says ok|say alice : ok|proof read f : proof 1 ; 1 label : alice says ok ; end|\
    call read f 0|call read f 0|say alice : other|call read f 0
told=welcome 1 0|done 1 0|done 2 0|done 3 3|done 4 0|allowed 4 0 0|allowed 4 1 0|done 5 5|allowed 5 1 0|closed|
written=nexus 2|principal alice pa|1 alice object f|1 alice goal read f : alice says ok|1 alice say alice : ok|\
    1 alice proof read f : proof 2 ; 1 label : alice says ok ; end|1 alice say alice : other|end|";

#[test]
fn kept_verdicts_answer_until_a_change_that_they_rest_on(
    rt: HostRuntime,
) -> Result<(), AllocError> {
    let alloc = rt.alloc();
    try_days(&rt, alloc, FIRST, QUIET)?;
    try_days(&rt, alloc, DELETED, QUIET)?;
    try_days(&rt, alloc, OTHER, QUIET)
}

// Three principals and an authority.
const ASKED: &str = "words=serve mem 1 3
policy=nexus 1|principal fs pf|principal bob pb|principal ntp pn|authority 1 mem|end|
answers=yn
talks=hello fs pf|object f|goal read f : fs says TimeNow < 20110319|say fs : ntp speaksfor fs on TimeNow|transfer 3 bob&hello ntp pn|\
    bind ntp 1&hello bob pb|\
    proof read f : proof 1 ; 1 label : fs says ntp speaksfor fs on TimeNow ; 2 handoff_on 1 : ntp speaksfor fs on TimeNow ; 3 ask : ntp says TimeNow < 20110319 ; 4 sf_on_e 2 3 : fs says TimeNow < 20110319 ; end|\
    call read f 0|call read f 0
told=welcome 1 0|done 1 0|done 2 0|done 3 3|done 4 0|closed|welcome 2 4|done 5 0|closed|welcome 3 5|done 6 0|allowed 6 0 0|\
    denied 6 AuthorityNo 3|closed|
written=nexus 2|principal fs pf|principal bob pb|principal ntp pn|authority 1 mem|1 fs object f|\
    1 fs goal read f : fs says TimeNow < 20110319|1 fs say fs : ntp speaksfor fs on TimeNow|1 fs transfer 3 bob|2 ntp bind ntp 1|\
    3 bob proof read f : proof 2 ; 1 label : fs says ntp speaksfor fs on TimeNow ; 2 handoff_on 1 : ntp speaksfor fs on TimeNow ; 3 ask : ntp says TimeNow < 20110319 ; 4 sf_on_e 2 3 : fs says TimeNow < 20110319 ; end|\
    end|";

#[test]
fn an_authority_is_asked_at_each_call(rt: HostRuntime) -> Result<(), AllocError> {
    try_days(&rt, rt.alloc(), ASKED, QUIET)
}

const TORN: &str = "talks=raw 000000&raw 00008401
told=torn|bad 0|bad frame|
written=nexus 2|principal alice pa|end|";

#[test]
fn frames_are_taken_in_pieces_and_torn(rt: HostRuntime) -> Result<(), AllocError> {
    let alloc = rt.alloc();
    try_days(&rt, alloc, "piece=1", FIRST)?;
    try_days(&rt, alloc, TORN, QUIET)
}

const REGISTER: &str =
    "talks=hello alice pa|object f|goal read f : true|goal write f : true|proof read f : proof 1 ; 1 true_i : true ; end|\
    proof write f : proof 1 ; 1 true_i : true ; end|call write f 7|call read f 0
told=welcome 1 0|done 1 0|done 2 0|done 3 0|done 4 0|done 5 1|allowed 5 0 0|allowed 5 0 7|closed|
written=nexus 2|principal alice pa|1 alice object f|1 alice goal read f : true|1 alice goal write f : true|\
    1 alice proof read f : proof 2 ; 1 true_i : true ; end|1 alice proof write f : proof 2 ; 1 true_i : true ; end|end|";

#[test]
fn a_register_is_written_and_read(rt: HostRuntime) -> Result<(), AllocError> {
    try_days(&rt, rt.alloc(), REGISTER, QUIET)
}

const REGION: &str =
    "talks=hello alice pa|objects 257|goal read o0 : true|proof read o0 : proof 1 ; 1 true_i : true ; end|call read o0 0|goal read o255 : true|\
    call read o0 0|goal read o256 : true|call read o0 0|call read o0 0
told=..done 257 256|done 258 0|done 259 0|allowed 259 0 0|done 260 0|allowed 260 1 0|done 261 0|allowed 261 0 0|allowed 261 1 0|closed|
written=..1 alice object o256|1 alice goal read o0 : true|1 alice proof read o0 : proof 2 ; 1 true_i : true ; end|\
    1 alice goal read o255 : true|1 alice goal read o256 : true|end|";

#[test]
fn a_goal_in_the_same_region_makes_a_kept_verdict_void(rt: HostRuntime) -> Result<(), AllocError> {
    try_days(&rt, rt.alloc(), REGION, QUIET)
}

// How often a call found no kept verdict.
#[derive(Drop)]
struct Misses {
    count: AtomicU64,
}

impl Gate for Misses {
    fn at<R: Net<Listener = TcpListener, Stream = TcpStream> + Clock>(
        &self,
        _rt: &R,
        place: Place,
    ) {
        if let Place::Missed { .. } = place {
            self.count.fetch_add(1, Ordering::SeqCst);
        }
    }
}

const DENIED: &str =
    "talks=hello alice pa|object f|goal read f : alice says ok|proof read f : proof 1 ; 1 true_i : true ; end|call read f 0|call read f 0
told=welcome 1 0|done 1 0|done 2 0|done 3 0|denied 3 Line 1 NotGoal|denied 3 Line 1 NotGoal|closed|
written=nexus 2|principal alice pa|1 alice object f|1 alice goal read f : alice says ok|1 alice proof read f : proof 2 ; 1 true_i : true ; end|end|";

const UNSET: &str =
    "talks=hello alice pa|object f|goal read f : alice says ok|proof read f : proof 1 ; 1 true_i : true ; end|call read f 0|nogoal read f|\
    call read f 0|goal read f : true|call read f 0|call read f 0
told=welcome 1 0|done 1 0|done 2 0|done 3 0|denied 3 Line 1 NotGoal|done 4 0|denied 4 GoalUnset|done 5 0|allowed 5 0 0|allowed 5 1 0|closed|
written=nexus 2|principal alice pa|1 alice object f|1 alice goal read f : alice says ok|\
    1 alice proof read f : proof 2 ; 1 true_i : true ; end|1 alice nogoal read f|1 alice goal read f : true|end|";

#[test]
fn a_proof_of_another_goal_is_denied_at_once(rt: HostRuntime) -> Result<(), AllocError> {
    let alloc = rt.alloc();
    let gate = Misses {
        count: AtomicU64::new(0),
    };
    try_day(
        &rt,
        alloc,
        Day {
            own: DENIED,
            other: QUIET,
        },
        &gate,
    )?;
    assert_eq!(rt; gate.count.load(Ordering::SeqCst), 0);
    try_days(&rt, alloc, UNSET, QUIET)
}

// The door listens nowhere; the second share of the panel fails; the second link does not come.
const BROKEN: &str = "listen=1
status=7
told=
written=

words=serve mem 2 1
share=2
status=8
told=
written=

next=2
status=7";

const UNSENT: &str = "send=3
talks=hello alice pa|object f|goal read f : alice says ok|say alice : ok|proof read f : proof 1 ; 1 label : alice says ok ; end|\
    call read f 0|call read f 0
told=welcome 1 0|done 1 0|write fault|
written=nexus 2|principal alice pa|1 alice object f|1 alice goal read f : alice says ok|end|";

#[test]
fn faults_of_door_panel_link_and_output_are_told(rt: HostRuntime) -> Result<(), AllocError> {
    let alloc = rt.alloc();
    try_days(&rt, alloc, BROKEN, FIRST)?;
    try_days(&rt, alloc, UNSENT, QUIET)
}

const FULL: &str = "room=49
talks=hello alice pa|object f|goal read f : true|object g|object f|call read f 0
status=5
told=welcome 1 0|done 1 0|refused 1 NotRecorded|refused 1 NotRecorded|refused 1 NameTaken|denied 1 GoalUnset|closed|
written=nexus 2|principal alice pa|1 alice object f|1 ali";

const UNOPENED: &str = "room=10
status=5
told=
written=nexus 2|pr";

#[test]
fn changes_are_refused_once_the_output_is_full(rt: HostRuntime) -> Result<(), AllocError> {
    let alloc = rt.alloc();
    try_days(&rt, alloc, FULL, QUIET)?;
    try_days(&rt, alloc, UNOPENED, FIRST)
}

// A gate for two sessions. The second goes on behind its first answer only once the first is asking, and the first goes on only once the second has its
// second answer; each waits for so many looks and then gives up.
#[derive(Drop)]
struct Turnstile {
    asking: AtomicU64,
    answered: AtomicU64,
    said: AtomicU64,
    given_up: AtomicU64,
}

const FIRST_SESSION: u64 = 4;

const SECOND_SESSION: u64 = 5;

const LOOKS: u64 = 1_000_000_000;

impl Turnstile {
    // Goes on once the word is set.
    fn hold(&self, word: &AtomicU64) {
        for _ in 0..LOOKS {
            if word.load(Ordering::SeqCst) > 0 {
                return;
            }
        }
        self.given_up.fetch_add(1, Ordering::SeqCst);
    }

    // The second session was answered.
    fn answer(&self) {
        if self.answered.fetch_add(1, Ordering::SeqCst) == 0 {
            self.hold(&self.asking);
        } else {
            self.said.store(1, Ordering::SeqCst);
        }
    }
}

impl Gate for Turnstile {
    fn at<R: Net<Listener = TcpListener, Stream = TcpStream> + Clock>(
        &self,
        _rt: &R,
        place: Place,
    ) {
        match place {
            Place::Asking { session, .. } if session == FIRST_SESSION => {
                self.asking.store(1, Ordering::SeqCst);
                self.hold(&self.said);
            }
            Place::Answered { session, .. } if session == SECOND_SESSION => self.answer(),
            _ => {}
        }
    }
}

const CHANGED: &str = "words=serve mem 2 1
policy=nexus 1|principal fs pf|principal bob pb|principal ntp pn|authority 1 mem|1 fs object f|\
    1 fs goal read f : fs says TimeNow < 20110319|1 fs say fs : ntp speaksfor fs on TimeNow|1 fs transfer 3 bob|2 ntp bind ntp 1|\
    3 bob proof read f : proof 1 ; 1 label : fs says ntp speaksfor fs on TimeNow ; 2 handoff_on 1 : ntp speaksfor fs on TimeNow ; 3 ask : ntp says TimeNow < 20110319 ; 4 sf_on_e 2 3 : fs says TimeNow < 20110319 ; end|\
    end|
answers=y
talks=hello bob pb|call read f 0
others=hello fs pf|say fs : ok
told=welcome 4 6|allowed 6 0 0|closed|welcome 5 6|done 7 7|closed|
written=nexus 2|principal fs pf|principal bob pb|principal ntp pn|authority 1 mem|1 fs object f|\
    1 fs goal read f : fs says TimeNow < 20110319|1 fs say fs : ntp speaksfor fs on TimeNow|1 fs transfer 3 bob|2 ntp bind ntp 1|\
    3 bob proof read f : proof 2 ; 1 label : fs says ntp speaksfor fs on TimeNow ; 2 handoff_on 1 : ntp speaksfor fs on TimeNow ; 3 ask : ntp says TimeNow < 20110319 ; 4 sf_on_e 2 3 : fs says TimeNow < 20110319 ; end|\
    5 fs say fs : ok|end|";

#[test]
fn the_policy_changes_while_an_authority_is_asked(rt: HostRuntime) -> Result<(), AllocError> {
    let gate = Turnstile {
        asking: AtomicU64::new(0),
        answered: AtomicU64::new(0),
        said: AtomicU64::new(0),
        given_up: AtomicU64::new(0),
    };
    try_day(
        &rt,
        rt.alloc(),
        Day {
            own: CHANGED,
            other: QUIET,
        },
        &gate,
    )?;
    assert_eq!(rt; gate.given_up.load(Ordering::SeqCst), 0);
    Ok(())
}

// A service that records its calls: each, and nothing else, with the patience or without; and nothing where the word is not said. One whose sink is full within
// a record: that call and each later one is refused, also in the next session, and changes go on. Two workers, whose sinks are their own. One in which the
// second share can't be made, so nobody is served; and words in another order.
const RECORDED: &str = "words=serve mem 1 2 records
recorded=5 alice read f - : allowed|5 alice read f - : allowed|6 alice read h - : refused NoSuchObject|6 bob read f - : denied NoProof|&

words=serve mem 1 2 300 records
recorded=5 alice read f - : allowed|5 alice read f - : allowed|6 alice read h - : refused NoSuchObject|6 bob read f - : denied NoProof|&

words=serve mem 1 2
recorded=

words=serve mem 1 2 records
holds=30
status=5
told=welcome 2 5|allowed 5 0 0|refused 5 NotRecorded|done 6 2|refused 6 NotRecorded|closed|welcome 3 6|refused 6 NotRecorded|closed|
recorded=5 alice read f - : allowed|5 a&

words=serve mem 2 1 records
talks=hello alice pa|call read f 0
others=hello bob pb|call read f 0
told=welcome 2 5|allowed 5 0 0|closed|welcome 3 5|denied 5 NoProof|closed|
written=nexus 2|principal alice pa|principal bob pb|1 alice object f|1 alice object g|1 alice goal read f : true|\
    1 alice proof read f : proof 2 ; 1 true_i : true ; end|1 alice say alice : ok|end|
recorded=5 alice read f - : allowed|&5 bob read f - : denied NoProof|&

words=serve mem 2 1 records
lend=2
status=5
told=
written=
recorded=&

words=serve mem 1 2 records 300
status=2
told=
written=
recorded=

words=serve mem 1 2 records records
status=2
told=
written=
recorded=";

const RECORDED_DAY: &str =
    "policy=nexus 2|principal alice pa|principal bob pb|1 alice object f|1 alice object g|1 alice goal read f : true|\
    1 alice proof read f : proof 2 ; 1 true_i : true ; end|1 alice say alice : ok|end|
room=4096
piece=1000
holds=4096
talks=hello alice pa|call read f 0|call read f 0|object i|call read h 0&hello bob pb|call read f 0
status=0
told=welcome 2 5|allowed 5 0 0|allowed 5 1 0|done 6 2|refused 6 NoSuchObject|closed|welcome 3 6|denied 6 NoProof|closed|
written=nexus 2|principal alice pa|principal bob pb|1 alice object f|1 alice object g|1 alice goal read f : true|\
    1 alice proof read f : proof 2 ; 1 true_i : true ; end|1 alice say alice : ok|2 alice object i|end|";

#[test]
fn calls_are_recorded(rt: HostRuntime) -> Result<(), AllocError> {
    try_days(&rt, rt.alloc(), RECORDED, RECORDED_DAY)
}
