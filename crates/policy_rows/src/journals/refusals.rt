//! Each refusal, also where a later one applies too.
use crate::tables::holds;
use std::alloc::AllocError;

const TABLE: &str = "journal: an owner alone sets goals
nexus 2|principal alice pw|principal bob pw|end|
1 alice object f -> 0
1 bob goal read f : true -> NotOwner
1 bob goal read f : ( -> NotOwner
1 alice goal read f : ( -> BadFormula
1 alice goal read f : p(?x) -> BadFormula
1 alice goal read f : ?subject says p -> 0
1 alice goal read g : ( -> NoSuchObject
1 bob nogoal write f -> NotOwner
1 alice nogoal write f -> NoGoal
1 alice nogoal read g -> NoSuchObject
1 alice nogoal read f -> 0
1 alice nogoal read f -> NoGoal
1 bob object f -> NameTaken
1 bob object g -> 1
count -> 4

journal: labels are their holders
nexus 2|principal alice pw|principal bob pw|end|
1 alice say alice : ok -> 1
1 alice say alice.disk : ok -> 2
1 alice say bob : ( -> NotYourPrincipal
1 alice say ?x : ok -> BadFormula
1 alice say alice : p(?x) -> BadFormula
1 alice say alice : ( -> BadFormula
1 alice transfer 9 eve -> NoSuchPrincipal
1 alice transfer 9 bob -> NoSuchLabel
1 bob transfer 1 bob -> NotHolder
1 alice transfer 1 alice -> 0
1 alice transfer 1 bob -> 0
1 alice delete 1 -> NotHolder
1 bob delete 1 -> 0
1 bob delete 1 -> NoSuchLabel
1 bob say bob : ok -> 6

journal: proofs and bindings are their subjects
nexus 2|principal alice pw|principal bob pw|authority 1 mem|end|
1 alice object f -> 0
1 bob proof read g : proof -> NoSuchObject
1 bob proof read f : proof -> BadProof
1 bob proof read f : proof 1 ; 1 true_i : true ; end -> 0
1 alice proof read f : proof 1 ; 1 true_i : true ; end -> 1
1 bob proof read f : proof 1 ; 1 true_i : true ; end -> 0
1 bob noproof read g -> NoSuchObject
1 bob noproof write f -> NoSuchProof
1 bob noproof read f -> 0
1 bob noproof read f -> NoSuchProof
1 bob proof write f : proof 1 ; 1 true_i : true ; end -> 2
1 bob proof read f : proof 1 ; 1 true_i : true ; end -> 0
1 bob bind alice 3 -> NotYourPrincipal
1 bob bind bob 3 -> BadPort
1 bob bind ( 3 -> BadPort
1 bob bind ( 1 -> BadFormula
1 bob bind bob 1 -> 0
1 bob unbind alice -> NotYourPrincipal
1 bob unbind bob.x -> NoBinding
1 bob unbind ( -> BadFormula
1 bob unbind bob -> 0
1 bob unbind bob -> NoBinding";

#[test]
fn refusals_come_in_their_order(rt: HostRuntime) -> Result<(), AllocError> {
    holds(&rt, rt.alloc(), TABLE)
}
