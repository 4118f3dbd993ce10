//! What is written of a policy, of each kind of a change.
use crate::tables::holds;
use std::alloc::AllocError;

const TABLE: &str = "journal: a policy is written
nexus 2|principal alice pa|principal bob pb|authority 3 clock|end|
7 alice object f -> 0
7 alice goal read f : alice  says (ok) -> 0
7 alice say alice : ok -> 3
7 alice proof read f : proof 1;1 label:alice says ok;end -> 0
7 alice bind alice.clock 3 -> 0
7 alice transfer 3 bob -> 0
7 alice noproof read f -> 0
7 alice nogoal read f -> 0
7 alice unbind alice.clock -> 0
text -> nexus 2|principal alice pa|principal bob pb|authority 3 clock|\
    7 alice object f|7 alice goal read f : alice says ok|7 alice say alice : ok|\
    7 alice proof read f : proof 2 ; 1 label : alice says ok ; end|7 alice bind alice.clock 3|\
    7 alice transfer 3 bob|7 alice noproof read f|7 alice nogoal read f|7 alice unbind alice.clock|end|";

#[test]
fn a_policy_is_written(rt: HostRuntime) -> Result<(), AllocError> {
    holds(&rt, rt.alloc(), TABLE)
}
