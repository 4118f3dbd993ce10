// The rules of equations and comparisons.
use crate::checking::proofs::Lines;
use crate::rows::play;

const ROWS: &str = "1 eq_refl : 1 = 1 -> accepted
1 eq_refl : 1 = 2 -> 1 WrongShape
1 label : 1 = 2 ; 2 eq_sym 1 : 2 = 1 -> accepted
1 label : 1 = 2 ; 2 eq_sym 1 : 1 = 2 -> 2 WrongShape
1 label : 1 = 2 ; 2 label : 2 = 3 ; 3 eq_trans 1 2 : 1 = 3 -> accepted
1 label : 1 = 2 ; 2 label : 2 = 3 ; 3 eq_trans 2 1 : 1 = 3 -> 3 WrongShape
1 arith : 1 < 2 -> accepted
1 arith : 2 < 2 -> 1 NotTrue
1 label : 1 < 2 ; 2 label : 2 <= 3 ; 3 lt_trans 1 2 : 1 < 3 -> accepted
1 label : 1 <= 2 ; 2 label : 2 <= 3 ; 3 lt_trans 1 2 : 1 < 3 -> 3 WrongShape";

#[test]
fn comparisons(rt: HostRuntime) {
    play::<Lines>(&rt, rt.alloc(), ROWS);
}
