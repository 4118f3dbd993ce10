//! The text of a policy: what is read, what is told of a text that is none, and what is written.
use crate::tables::holds;
use std::alloc::AllocError;

// Of the entries, the lines of the second row are those that are written of the first. A head has so many principals and so many
// authorities.
const TABLE: &str = "read: texts are read or told by their wrong line
nexus 1|end| -> nexus 2|end|
nexus 2|end| -> nexus 2|end|
nexus 2|end -> nexus 2|end|
nexus 1|principal alice pa|7 alice object f|end -> nexus 2|principal alice pa|7 alice object f|end|
nexus 2|principal alice pa|7 alice object f|end| -> nexus 2|principal alice pa|7 alice object f|end|
nexus 2|principal alice pa|7 alice object f|8 alice object g|end| -> nexus 2|principal alice pa|7 alice object f|8 alice object g|end|
 -> Bad { line: 1 }
| -> Bad { line: 1 }
nexus 3|end| -> Bad { line: 1 }
nexus 1 |end| -> Bad { line: 1 }
nexus 2 -> Bad { line: 2 }
nexus 2| -> Bad { line: 2 }
nexus 2||end| -> Bad { line: 2 }
nexus 2|end|| -> Bad { line: 3 }
nexus 2|end|end| -> Bad { line: 3 }
nexus 2|end | -> Bad { line: 2 }
nexus 2|principal alice|end| -> Bad { line: 2 }
nexus 2|principal alice |end| -> Bad { line: 2 }
nexus 2|principal alice p q|end| -> Bad { line: 2 }
nexus 2|principal  alice pa|end| -> Bad { line: 2 }
nexus 2|principal says pa|end| -> Bad { line: 2 }
nexus 2|principal alice pa|principal alice pb|end| -> Bad { line: 3 }
nexus 2|authority 0 clock|principal alice pa|end| -> Bad { line: 3 }
nexus 2|authority 16 clock|end| -> Bad { line: 2 }
nexus 2|authority 07 clock|end| -> Bad { line: 2 }
nexus 2|authority 7 |end| -> Bad { line: 2 }
nexus 2|authority 7 clock|authority 7 other|end| -> Bad { line: 3 }

read entries: events are written in one spelling
1 alice object f|1 alice goal read f : alice  says(ok)|1 alice say alice.disk : p( 1 )and (q)|\
    1 alice say alice : not(a and b)or c=>d|1 alice goal read f : p(18446744073709551615)|\
    18446744073709551615 bob say bob :  ok|1 alice transfer 3 bob|2 bob delete 3|\
    1 alice proof read f : proof 1;1 true_i:true;end|1 alice noproof read f|1 alice nogoal read f|\
    1 bob bind bob.x 15|1 bob unbind bob.x|end| -> \
    1 alice object f|1 alice goal read f : alice says ok|1 alice say alice.disk : p(1) and q|\
    1 alice say alice : (a and b => false) or c => d|1 alice goal read f : p(18446744073709551615)|\
    18446744073709551615 bob say bob : ok|1 alice transfer 3 bob|2 bob delete 3|\
    1 alice proof read f : proof 2 ; 1 true_i : true ; end|1 alice noproof read f|1 alice nogoal read f|\
    1 bob bind bob.x 15|1 bob unbind bob.x|end|
1 alice object f|1 alice goal read f : alice says ok|1 alice say alice.disk : p(1) and q|\
    1 alice say alice : (a and b => false) or c => d|1 alice goal read f : p(18446744073709551615)|\
    18446744073709551615 bob say bob : ok|1 alice transfer 3 bob|2 bob delete 3|\
    1 alice proof read f : proof 2 ; 1 true_i : true ; end|1 alice noproof read f|1 alice nogoal read f|\
    1 bob bind bob.x 15|1 bob unbind bob.x|end| -> \
    1 alice object f|1 alice goal read f : alice says ok|1 alice say alice.disk : p(1) and q|\
    1 alice say alice : (a and b => false) or c => d|1 alice goal read f : p(18446744073709551615)|\
    18446744073709551615 bob say bob : ok|1 alice transfer 3 bob|2 bob delete 3|\
    1 alice proof read f : proof 2 ; 1 true_i : true ; end|1 alice noproof read f|1 alice nogoal read f|\
    1 bob bind bob.x 15|1 bob unbind bob.x|end|

read entries: a wrong entry is told by its line
1 alice object f|end|x -> Bad { line: 8 }
1 alice object f| -> Bad { line: 7 }
1 alice object f -> Bad { line: 7 }
0 alice object f|end| -> Bad { line: 6 }
01 alice object f|end| -> Bad { line: 6 }
18446744073709551616 alice object f|end| -> Bad { line: 6 }
1 eve object f|end| -> Bad { line: 6 }
1 alice  object f|end| -> Bad { line: 6 }
1 alice object f g|end| -> Bad { line: 6 }
1 alice object|end| -> Bad { line: 6 }
1 alice|end| -> Bad { line: 6 }
1 alice hello alice pa|end| -> Bad { line: 6 }
1 alice call read f 0|end| -> Bad { line: 6 }
1 alice object f|principal eve pe|end| -> Bad { line: 7 }
1 alice object f|authority 1 clock|end| -> Bad { line: 7 }
1 alice say alice :|end| -> Bad { line: 6 }
1 alice say alice : |end| -> Refused { line: 6, number: 15 }
1 alice say (alice : ok|end| -> Refused { line: 6, number: 15 }
1 alice goal read f: ok|end| -> Bad { line: 6 }
1 alice nogoal read|end| -> Bad { line: 6 }
1 alice proof read : x|end| -> Bad { line: 6 }
1 alice noproof read f g|end| -> Bad { line: 6 }
1 alice transfer 1|end| -> Bad { line: 6 }
1 alice delete 1 |end| -> Bad { line: 6 }
1 alice bind alice.\"x y\" 15|end| -> Bad { line: 6 }
1 alice unbind alice clock|end| -> Bad { line: 6 }
1 alice say alice : p(18446744073709551616)|end| -> Refused { line: 6, number: 15 }
1 alice say alice : alice says|end| -> Refused { line: 6, number: 15 }
1 alice say alice : p(1, 2, 3, 4, 5, 6, 7, 8, 9)|end| -> Refused { line: 6, number: 15 }
1 alice say alice : (((((((((((((((((((((((((((((((((((((((((((((((((((((((((((((((((|end| -> Refused { line: 6, number: 15 }
1 alice object f|1 alice goal read f : (((((((((((((((((((((((((((((((((((((((((((((((((((((((((((((((((|end| -> Refused { line: 7, number: 15 }
1 alice object f|1 alice goal read f : p(18446744073709551616)|end| -> Refused { line: 7, number: 15 }
1 alice object f|1 alice goal read f : alice says|end| -> Refused { line: 7, number: 15 }
1 alice object f|1 alice goal read f : p(1, 2, 3, 4, 5, 6, 7, 8, 9)|end| -> Refused { line: 7, number: 15 }
1 alice bind alice 1|end| -> Refused { line: 6, number: 14 }
1 alice transfer 1 eve|end| -> Refused { line: 6, number: 4 }
1 alice say bob : ok|end| -> Refused { line: 6, number: 5 }
1 alice delete 0|end| -> Refused { line: 6, number: 6 }
1 alice say alice : ok|1 bob delete 1|end| -> Refused { line: 7, number: 7 }
1 alice goal read f : ok|end| -> Refused { line: 6, number: 8 }
1 alice object f|1 alice object f|end| -> Refused { line: 7, number: 9 }
1 alice object f|1 bob nogoal read f|end| -> Refused { line: 7, number: 10 }
1 alice object f|1 alice nogoal read f|end| -> Refused { line: 7, number: 11 }
1 alice object f|1 alice noproof read f|end| -> Refused { line: 7, number: 12 }
1 alice unbind alice|end| -> Refused { line: 6, number: 13 }
1 alice object f|1 alice proof read f : x|end| -> Refused { line: 7, number: 16 }
1 alice object f|1 alice object f|x| -> Refused { line: 7, number: 9 }
1 alice object f|x|1 alice object f| -> Bad { line: 7 }

read head: heads have limits
16384 16 -> the same
16385 0 -> Bad { line: 16386 }
0 17 -> Bad { line: 18 }

read letters: texts have a limit
67108865 -> TooLong

policy line: a line is written of what is spelled
18446744073709551615 alice say alice : ok  and true -> 18446744073709551615 alice say alice : ok and true|
1 alice say alice : not -> ";

#[test]
fn texts_are_read_written_or_told_by_their_wrong_line(rt: HostRuntime) -> Result<(), AllocError> {
    holds(&rt, rt.alloc(), TABLE)
}
