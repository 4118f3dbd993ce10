// Which fault is told where several apply: that of the lowest faulty line, and of this line the first.
use crate::checking::proofs::Lines;
use crate::rows::play;

// Proofs whose goal is `true`, which none of them concludes. So each last line has the last fault too.
// The faults of one line come in their order: beside the first of these the line has NotHyp too, then WrongShape, then NotFresh or
// OutOfScope, then StillOpen; and beside NotAsk it has NotClosed. Each line below the first faulty one has an earlier fault.
const ORDER: &str = "1 label : p ; 2 imp_i 2 1 : p => p @ true -> 2 NoSuchRef
1 label : p ; 2 imp_i 1 1 : p @ true -> 2 NotHyp
1 hyp : p(?x) ; 2 forall_i 1 : forall ?x : p @ true -> 2 WrongShape
1 label : a speaksfor b on p ; 2 label : a says q ; 3 sf_on_e 1 2 : b says p @ true -> 3 WrongShape
1 hyp : p(?x) ; 2 forall_i 1 : forall ?x : p(?x) @ true -> 2 NotFresh
1 hyp : a speaksfor b on p ; 2 label : a says q ; 3 sf_on_e 1 2 : b says q @ true -> 3 OutOfScope
1 ask : p(?x) @ true -> 1 NotAsk
1 arith : 2 < 2 @ true -> 1 NotTrue
1 ask : a says p(?x) @ true -> 1 NotClosed
1 hyp : p @ true -> 1 StillOpen
1 label : p @ true -> 1 NotGoal
1 label : p(?x) ; 2 arith : 2 < 2 ; 3 true_i : p ; 4 and_l 9 : p @ true -> 1 NotClosed
1 label : p ; 2 arith : 2 < 2 ; 3 and_l 9 : p @ true -> 2 NotTrue";

#[test]
fn order(rt: HostRuntime) {
    play::<Lines>(&rt, rt.alloc(), ORDER);
}

// Capture is told before StillOpen, and after NoSuchRef.
const CAPTURES: &str =
    "1 label : forall ?x : forall ?y : p(?x) ; 2 forall_e 1 [?y] : p @ p -> 2 Capture
1 hyp : forall ?x : forall ?y : p(?x) ; 2 forall_e 1 [?y] : p @ p -> 2 Capture
1 forall_e 2 [?y] : p ; 2 label : forall ?x : forall ?y : p(?x) @ p -> 1 NoSuchRef";

#[test]
fn captures(rt: HostRuntime) {
    play::<Lines>(&rt, rt.alloc(), CAPTURES);
}
