// The rules of the connectives.
use crate::checking::proofs::Lines;
use crate::rows::play;

const ROWS: &str = "1 true_i : true -> accepted
1 true_i : false -> 1 WrongShape
1 label : p ; 2 label : q ; 3 and_i 1 2 : p and q -> accepted
1 label : p ; 2 label : q ; 3 and_i 2 1 : p and q -> 3 WrongShape
1 label : p and q ; 2 and_l 1 : p -> accepted
1 label : p and q ; 2 and_l 1 : q -> 2 WrongShape
1 label : p and q ; 2 and_r 1 : q -> accepted
1 label : p and q ; 2 and_r 1 : p -> 2 WrongShape
1 label : p ; 2 or_l 1 : p or q -> accepted
1 label : q ; 2 or_l 1 : p or q -> 2 WrongShape
1 label : q ; 2 or_r 1 : p or q -> accepted
1 label : p ; 2 or_r 1 : p or q -> 2 WrongShape
1 label : p or q ; 2 hyp : p ; 3 or_l 2 : p or q ; 4 hyp : q ; 5 or_r 4 : p or q ; 6 or_e 1 2 3 4 5 : p or q -> accepted
1 label : p or q ; 2 hyp : p ; 3 or_l 2 : p or q ; 4 hyp : q ; 5 or_r 4 : p or q ; 6 or_e 1 2 3 4 3 : p or q -> 6 StillOpen
1 hyp : p ; 2 imp_i 1 1 : p => p -> accepted
1 label : p ; 2 imp_i 1 1 : p => p -> 2 NotHyp
1 label : p => q ; 2 label : p ; 3 imp_e 1 2 : q -> accepted
1 label : p => q ; 2 label : p ; 3 imp_e 2 1 : q -> 3 WrongShape
1 label : false ; 2 false_e 1 : p -> accepted
1 label : true ; 2 false_e 1 : p -> 2 WrongShape";

#[test]
fn connectives(rt: HostRuntime) {
    play::<Lines>(&rt, rt.alloc(), ROWS);
}
