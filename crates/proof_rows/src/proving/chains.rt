// Chains of a few steps.
use crate::proving::cases::{Chain, Count};
use crate::rows::play;

// Labels and a goal, with the proof that is found. Two delegations, the second on a name; the goal is a label; subprincipals of
// subprincipals, and of one for whom somebody speaks; others than the one above the goal's principal have as many parts; a
// subprincipal costs less than a delegation; one delegation costs less than two subprincipals; a shorter way is taken though a longer
// one is found in the labels first; out of scope, and a conjunction in the scope; said by another, and for another; labels that stand
// twice; delegations in a ring, from which nobody states it.
const ROWS: &str =
    "label bob says ok ; label carol says bob speaksfor carol ; label dave says carol speaksfor dave on ok ; goal dave says ok -> proof 2 ; 1 label : bob says ok ; 2 label : carol says bob speaksfor carol ; 3 handoff 2 : bob speaksfor carol ; 4 sf_e 3 1 : carol says ok ; 5 label : dave says carol speaksfor dave on ok ; 6 handoff_on 5 : carol speaksfor dave on ok ; 7 sf_on_e 6 4 : dave says ok ; end
label bob says ok ; label dave says carol speaksfor dave on ok ; goal dave says ok -> none
label bob says ok ; goal bob.x says ok -> proof 2 ; 1 label : bob says ok ; 2 sf_sub : bob speaksfor bob.x ; 3 sf_e 2 1 : bob.x says ok ; end
label bob says ok ; goal bob says ok -> proof 2 ; 1 label : bob says ok ; end
label bob says ok ; label bob says ok ; label carol says bob speaksfor carol ; goal bob says ok -> proof 2 ; 1 label : bob says ok ; end
goal bob says ok -> none
label bob says ok ; label carol.x says bob speaksfor carol.x ; goal carol.x.y.z says ok -> proof 2 ; 1 label : bob says ok ; 2 label : carol.x says bob speaksfor carol.x ; 3 handoff 2 : bob speaksfor carol.x ; 4 sf_e 3 1 : carol.x says ok ; 5 sf_sub : carol.x speaksfor carol.x.y ; 6 sf_e 5 4 : carol.x.y says ok ; 7 sf_sub : carol.x.y speaksfor carol.x.y.z ; 8 sf_e 7 6 : carol.x.y.z says ok ; end
label bob.x says ok ; goal bob says ok -> none
label carol says ok ; goal bob.x says ok -> none
label carol says ok ; label bob says ok ; goal bob.x says ok -> proof 2 ; 1 label : bob says ok ; 2 sf_sub : bob speaksfor bob.x ; 3 sf_e 2 1 : bob.x says ok ; end
label carol says ok ; label dave says ok ; goal bob.x says ok -> none
label bob says ok ; label bob.x says bob speaksfor bob.x ; goal bob.x says ok -> proof 2 ; 1 label : bob says ok ; 2 sf_sub : bob speaksfor bob.x ; 3 sf_e 2 1 : bob.x says ok ; end
label bob says ok ; label bob.x.y says bob speaksfor bob.x.y ; goal bob.x.y says ok -> proof 2 ; 1 label : bob says ok ; 2 label : bob.x.y says bob speaksfor bob.x.y ; 3 handoff 2 : bob speaksfor bob.x.y ; 4 sf_e 3 1 : bob.x.y says ok ; end
label bob says ok ; label dave says carol speaksfor dave ; label carol says bob speaksfor carol ; label dave says bob speaksfor dave ; goal dave says ok -> proof 2 ; 1 label : bob says ok ; 2 label : dave says bob speaksfor dave ; 3 handoff 2 : bob speaksfor dave ; 4 sf_e 3 1 : dave says ok ; end
label carol says bad ; label dave says carol speaksfor dave on ok ; goal dave says bad -> none
label carol says (ok and ok) ; label dave says carol speaksfor dave on ok ; goal dave says (ok and ok) -> proof 2 ; 1 label : carol says (ok and ok) ; 2 label : dave says carol speaksfor dave on ok ; 3 handoff_on 2 : carol speaksfor dave on ok ; 4 sf_on_e 3 1 : dave says (ok and ok) ; end
label bob says ok ; label dave says bob speaksfor carol ; goal carol says ok -> none
label bob says ok ; label bob says bob speaksfor carol ; goal carol says ok -> none
label carol says ok ; label carol says bob speaksfor carol ; goal bob says ok -> none
label carol says bob speaksfor carol ; label bob says ok ; label dave says carol speaksfor dave on ok ; label carol says bob speaksfor carol ; label bob says ok ; goal carol says ok -> proof 2 ; 1 label : bob says ok ; 2 label : carol says bob speaksfor carol ; 3 handoff 2 : bob speaksfor carol ; 4 sf_e 3 1 : carol says ok ; end
label carol says bob speaksfor carol ; label bob says carol speaksfor bob ; goal carol says ok -> none";

#[test]
fn chains_of_a_few_steps(rt: HostRuntime) {
    play::<Chain>(&rt, rt.alloc(), ROWS);
}

// Bob leads to dave through carol, through eve, and through eve on a name.
const SEVERAL: &str =
    "label dave says eve speaksfor dave ; label dave says carol speaksfor dave ; label eve says bob speaksfor eve on ok ; label eve says bob speaksfor eve ; label carol says bob speaksfor carol ; label bob says ok ; goal dave says ok -> 7 lines";

#[test]
fn several_shortest_chains(rt: HostRuntime) {
    play::<Count>(&rt, rt.alloc(), SEVERAL);
}

const NOBODY: &str =
    "label bob says ok ; label carol says bob speaksfor carol ; goal true -> nobody says it
label bob says ok ; label carol says bob speaksfor carol ; goal bob speaksfor carol -> nobody says it
label bob says ok ; label carol says bob speaksfor carol ; goal bob says ok and bob says ok -> nobody says it";

#[test]
fn a_goal_that_nobody_says(rt: HostRuntime) {
    play::<Chain>(&rt, rt.alloc(), NOBODY);
}
