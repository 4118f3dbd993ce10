// The lines that stand on nothing, and the rules of what a principal says.
use crate::checking::proofs::Lines;
use crate::rows::play;

const ROWS: &str = "1 hyp : p -> 1 StillOpen
1 label : p ; 2 says_i 1 : a says p -> accepted
1 label : q ; 2 says_i 1 : a says p -> 2 WrongShape
1 label : a says (p => q) ; 2 label : a says p ; 3 deduce 1 2 : a says q -> accepted
1 label : a says (p => q) ; 2 label : b says p ; 3 deduce 1 2 : a says q -> 3 WrongShape
1 label : a says a says p ; 2 says_join 1 : a says p -> accepted
1 label : a says b says p ; 2 says_join 1 : a says p -> 2 WrongShape
1 label : p -> accepted
1 label : p(?x) -> 1 NotClosed
1 ask : a says p -> accepted, with labels 0 from 0 and asks 1 from 1
1 ask : p -> 1 NotAsk";

#[test]
fn statements(rt: HostRuntime) {
    play::<Lines>(&rt, rt.alloc(), ROWS);
}
