//! What steps of two sessions are told, worked out by hand.
use crate::plays::{Play, told};
use crate::told::assert_none;
use std::alloc::{AllocError, Global};
use std::net::{Net, TcpListener, TcpStream};
use std::rt::Clock;
use std::sync::Wait;

// A play over a sink that has room for all and does not fail.
fn play_of<'a>(policy: &'a [u8], steps: &'a str) -> Play<'a> {
    Play {
        policy,
        room: 100_000,
        fails: 0,
        sync_fails: 0,
        steps,
    }
}

const POLICY: &[u8] = b"nexus 2\nprincipal alice pa\nprincipal bob pb\nend\n";

// Plays, with an empty line between: a title, the steps, and what they come to.
const PLAYS: &str = "a kept verdict is told until its label goes
alice object f -> Written(Done { at: 1, number: 0 })
alice goal read f : alice says ok -> Written(Done { at: 2, number: 0 })
alice say alice : ok -> Written(Done { at: 3, number: 3 })
alice proof read f : proof 1 ; 1 label : alice says ok ; end -> Written(Done { at: 4, number: 0 })
alice call read f -> Judged { at: 4, finding: Allowed { asks: 0 } }
alice call read f -> Kept { at: 4, held: Held { code: 1, line: 0, fault: 0 } }
alice delete 3 -> Written(Done { at: 5, number: 0 })
alice call read f -> Judged { at: 5, finding: Denied(LabelMissing { line: 1 }) }
alice delete 3 -> Written(Refused { at: 5, refusal: NoSuchLabel })
comes to
None, seen 5 5, entries 5, broken false, faults 0, synced 200
nexus 2
principal alice pa
principal bob pb
1 alice object f
1 alice goal read f : alice says ok
1 alice say alice : ok
1 alice proof read f : proof 2 ; 1 label : alice says ok ; end
1 alice delete 3
end

a kept verdict stays where another label is said
alice object f -> Written(Done { at: 1, number: 0 })
alice goal read f : alice says ok -> Written(Done { at: 2, number: 0 })
alice say alice : ok -> Written(Done { at: 3, number: 3 })
alice proof read f : proof 1 ; 1 label : alice says ok ; end -> Written(Done { at: 4, number: 0 })
alice call read f -> Judged { at: 4, finding: Allowed { asks: 0 } }
alice say alice : other -> Written(Done { at: 5, number: 5 })
alice call read f -> Kept { at: 5, held: Held { code: 1, line: 0, fault: 0 } }
comes to
None, seen 5 5, entries 5, broken false, faults 0, synced 209
nexus 2
principal alice pa
principal bob pb
1 alice object f
1 alice goal read f : alice says ok
1 alice say alice : ok
1 alice proof read f : proof 2 ; 1 label : alice says ok ; end
1 alice say alice : other
end

a denial is kept too
alice object f -> Written(Done { at: 1, number: 0 })
alice goal read f : alice says ok -> Written(Done { at: 2, number: 0 })
alice proof read f : proof 1 ; 1 true_i : true ; end -> Written(Done { at: 3, number: 0 })
alice call read f -> Judged { at: 3, finding: Denied(Line { line: 1, fault: NotGoal }) }
alice call read f -> Kept { at: 3, held: Held { code: 4, line: 1, fault: 12 } }
alice nogoal read f -> Written(Done { at: 4, number: 0 })
alice call read f -> Judged { at: 4, finding: Denied(GoalUnset) }
alice goal read f : true -> Written(Done { at: 5, number: 0 })
alice call read f -> Judged { at: 5, finding: Allowed { asks: 0 } }
alice call read f -> Kept { at: 5, held: Held { code: 1, line: 0, fault: 0 } }
comes to
None, seen 5 5, entries 5, broken false, faults 0, synced 201
nexus 2
principal alice pa
principal bob pb
1 alice object f
1 alice goal read f : alice says ok
1 alice proof read f : proof 2 ; 1 true_i : true ; end
1 alice nogoal read f
1 alice goal read f : true
end

two sessions write one text
bob call read f -> NoObject { at: 0 }
alice object f -> Written(Done { at: 1, number: 0 })
bob goal read f : true -> Written(Refused { at: 1, refusal: NotOwner })
bob object f -> Written(Refused { at: 1, refusal: NameTaken })
bob object g -> Written(Done { at: 2, number: 1 })
alice say alice : ( -> Written(Refused { at: 2, refusal: BadFormula })
alice call read f -> Judged { at: 2, finding: Denied(GoalUnset) }
bob call read g -> Judged { at: 2, finding: Denied(GoalUnset) }
comes to
None, seen 2 2, entries 2, broken false, faults 0, synced 76
nexus 2
principal alice pa
principal bob pb
1 alice object f
2 bob object g
end";

// The title of the first play that comes to something else, with what it comes to. Nothing where there is none.
fn first_other<R: Net<Listener = TcpListener, Stream = TcpStream> + Clock + Wait>(
    rt: &R,
    alloc: Global,
    plays: &str,
) -> Result<String, AllocError> {
    for part in plays.split("\n\n") {
        let (title, rest) = part.split_once("\n").unwrap_or((part, ""));
        let (steps, wanted) = rest.split_once("\ncomes to\n").unwrap_or(("", "?"));
        let told = told(rt, alloc, &play_of(POLICY, steps))?;
        if told.as_str() != wanted {
            return format!(in alloc; "{title}: {told}");
        }
    }
    Ok(String::new(alloc))
}

#[test]
fn steps_of_two_sessions_come_to_what_is_told_and_sent(rt: HostRuntime) -> Result<(), AllocError> {
    assert_none(&rt, first_other(&rt, rt.alloc(), PLAYS))
}

// The text of a policy whose entries are 257 objects, without its last line.
fn objects(alloc: Global) -> Result<String, AllocError> {
    let mut text = String::new(alloc);
    text.push_str("nexus 2\nprincipal alice pa\nprincipal bob pb\n")?;
    for number in 0..257u64 {
        let line = format!(in alloc; "1 alice object o{number}\n")?;
        text.push_str(line.as_str())?;
    }
    Ok(text)
}

// Objects 0 and 256 share a region, object 255 has another.
const REGIONS: &str = "alice goal read o0 : true -> Written(Done { at: 258, number: 0 })
alice proof read o0 : proof 1 ; 1 true_i : true ; end -> Written(Done { at: 259, number: 0 })
alice call read o0 -> Judged { at: 259, finding: Allowed { asks: 0 } }
alice goal read o255 : true -> Written(Done { at: 260, number: 0 })
alice call read o0 -> Kept { at: 260, held: Held { code: 1, line: 0, fault: 0 } }
alice goal read o256 : true -> Written(Done { at: 261, number: 0 })
alice call read o0 -> Judged { at: 261, finding: Allowed { asks: 0 } }
alice call read o0 -> Kept { at: 261, held: Held { code: 1, line: 0, fault: 0 } }";

const OF_REGIONS: &str = "2 alice goal read o0 : true
2 alice proof read o0 : proof 2 ; 1 true_i : true ; end
2 alice goal read o255 : true
2 alice goal read o256 : true
";

// What the steps come to over a policy with so many objects that two share a region, if it is not what it must be.
fn other_of_regions<R: Net<Listener = TcpListener, Stream = TcpStream> + Clock + Wait>(
    rt: &R,
    alloc: Global,
) -> Result<String, AllocError> {
    let front = objects(alloc)?;
    let policy = format!(in alloc; "{front}end\n")?;
    let told = told(rt, alloc, &play_of(policy.as_bytes(), REGIONS))?;
    let synced = front.len().saturating_add(OF_REGIONS.len());
    let due = format!(in alloc;
        "None, seen 261 261, entries 261, broken false, faults 0, synced {synced}\n{front}{OF_REGIONS}end"
    )?;
    if told == due {
        Ok(String::new(alloc))
    } else {
        Ok(told)
    }
}

#[test]
fn a_change_makes_a_call_of_its_region_miss(rt: HostRuntime) -> Result<(), AllocError> {
    assert_none(&rt, other_of_regions(&rt, rt.alloc()))
}
