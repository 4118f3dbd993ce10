// The rules of the quantifiers.
use crate::checking::proofs::Lines;
use crate::rows::play;

const ROWS: &str = "1 label : p ; 2 forall_i 1 : forall ?x : p -> accepted
1 hyp : p(?x) ; 2 forall_i 1 : forall ?x : p(?x) -> 2 NotFresh
1 label : forall ?x : p(?x) ; 2 forall_e 1 [1] : p(1) -> accepted
1 label : forall ?x : p(?x) ; 2 forall_e 1 [1] : p(?x) -> 2 WrongShape
1 label : p(1) ; 2 exists_i 1 [1] : exists ?x : p(?x) -> accepted
1 label : p ; 2 exists_i 1 [1] : exists ?x : p(?x) -> 2 WrongShape
1 label : exists ?x : p(?x) ; 2 hyp : p(?x) ; 3 label : p ; 4 exists_e 1 2 3 : p -> accepted
1 label : exists ?x : p(?x) ; 2 hyp : p(?x) ; 3 exists_e 1 2 2 : p(?x) -> 3 NotFresh";

#[test]
fn quantifiers(rt: HostRuntime) {
    play::<Lines>(&rt, rt.alloc(), ROWS);
}
