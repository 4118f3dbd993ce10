// The rules of delegations.
use crate::checking::proofs::Lines;
use crate::rows::play;

const ROWS: &str = "1 sf_refl : a speaksfor a -> accepted
1 sf_refl : a speaksfor b -> 1 WrongShape
1 label : a speaksfor b ; 2 label : b speaksfor c ; 3 sf_trans 1 2 : a speaksfor c -> accepted
1 label : a speaksfor b ; 2 label : c speaksfor c ; 3 sf_trans 1 2 : a speaksfor c -> 3 WrongShape
1 sf_sub : a speaksfor a.x -> accepted
1 sf_sub : a.x speaksfor a -> 1 WrongShape
1 label : a speaksfor b ; 2 label : a says p ; 3 sf_e 1 2 : b says p -> accepted
1 label : a speaksfor b ; 2 label : b says p ; 3 sf_e 1 2 : a says p -> 3 WrongShape
1 label : a speaksfor b on p ; 2 label : a says p ; 3 sf_on_e 1 2 : b says p -> accepted
1 label : a speaksfor b on p ; 2 label : a says q ; 3 sf_on_e 1 2 : b says q -> 3 OutOfScope
1 label : a speaksfor b ; 2 sf_weak 1 : a speaksfor b on p -> accepted
1 label : a speaksfor b ; 2 sf_weak 1 : b speaksfor a on p -> 2 WrongShape
1 label : b says a speaksfor b ; 2 handoff 1 : a speaksfor b -> accepted
1 label : a says a speaksfor b ; 2 handoff 1 : a speaksfor b -> 2 WrongShape
1 label : b says a speaksfor b on p ; 2 handoff_on 1 : a speaksfor b on p -> accepted
1 label : a says a speaksfor b on p ; 2 handoff_on 1 : a speaksfor b on p -> 2 WrongShape";

#[test]
fn delegations(rt: HostRuntime) {
    play::<Lines>(&rt, rt.alloc(), ROWS);
}
