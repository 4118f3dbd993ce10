//! What the guard finds at a point of the journal, and what changes touch.
use crate::tables::holds;
use std::alloc::AllocError;

const TABLE: &str = "journal: the subject stands in the goal
nexus 2|principal fs pw|principal bob pw|end|
1 fs object f -> 0
1 bob call read g 0 -> no object
1 fs goal read f : fs says may(?subject) -> 0
1 fs say fs : may(bob) -> 3
1 bob call read f 0 -> object 0 goal fs says may(bob)
1 bob call write f 0 -> object 0
1 fs transfer 3 bob -> 0
1 bob proof read f : proof 1 ; 1 label : fs says may(bob) ; end -> 0
1 fs proof read f : proof 1 ; 1 label : fs says may(bob) ; end -> 1
1 bob call read f 0 -> object 0 case 0 goal fs says may(bob) proof 1 label fs says may(bob)
1 fs call read f 0 -> object 0 case 1 goal fs says may(fs) proof 1

journal: labels and bindings stand in the order of lines
nexus 2|principal fs pw|principal bob pw|principal ntp pw|authority 1 mem|end|
1 fs object f -> 0
1 fs goal read f : fs says TimeNow < 20110319 -> 0
1 fs say fs : ntp speaksfor fs on TimeNow -> 3
1 fs transfer 3 bob -> 0
1 ntp bind ntp 1 -> 0
1 bob proof read f : proof 1 ; 1 label : fs says ntp speaksfor fs on TimeNow ; 2 handoff_on 1 : ntp speaksfor fs on TimeNow ; 3 ask : ntp says TimeNow < 20110319 ; 4 sf_on_e 2 3 : fs says TimeNow < 20110319 ; end -> 0
1 bob call read f 0 -> object 0 case 0 goal fs says TimeNow < 20110319 proof 4 label fs says ntp speaksfor fs on TimeNow bound ntp 1
1 ntp call read f 0 -> object 0 goal fs says TimeNow < 20110319
1 bob delete 3 -> 0
1 ntp unbind ntp -> 0
1 fs nogoal read f -> 0
1 bob call read f 0 -> object 0 case 0 proof 4

journal: a change touches one region or none
nexus 2|principal alice pw|principal bob pw|authority 1 mem|end|
all 0 258 4096 1 alice object o# -> each
touch 1 bob goal read o0 : true -> Some(0)
touch 1 bob goal read o255 : true -> Some(255)
touch 1 bob nogoal read o256 -> Some(0)
touch 1 bob proof read o257 : proof 1 ; 1 true_i : true ; end -> Some(1)
touch 1 bob noproof read o1 -> Some(1)
touch 1 bob transfer 1 alice -> Some(257)
touch 1 alice delete 1 -> Some(256)
touch 1 bob say bob : ok -> None
touch 1 bob object p -> None
touch 1 bob bind bob 1 -> None
touch 1 bob unbind bob -> None

journal: principals whose numbers are 256 apart share the region of their stores
principals 258
touch 1 p0 delete 1 -> Some(256)
touch 1 p255 delete 1 -> Some(511)
touch 1 p256 delete 1 -> Some(256)
touch 1 p257 transfer 1 p0 -> Some(257)

journal: labels are given in their order
nexus 2|principal alice pw|principal bob pw|end|
1 alice say alice : a -> 1
1 bob say bob : b -> 2
1 alice say alice : c -> 3
1 bob transfer 2 alice -> 0
label 0 0 -> none
label 0 1 -> alice says a
label 0 2 -> bob says b
label 0 3 -> alice says c
label 0 4 -> none
label 1 1 -> none";

#[test]
fn cases_and_regions_are_those_of_the_journal(rt: HostRuntime) -> Result<(), AllocError> {
    holds(&rt, rt.alloc(), TABLE)
}
