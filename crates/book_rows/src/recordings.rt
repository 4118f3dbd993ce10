//! Sinks that fail.
use crate::plays::{Play, told};
use crate::told::assert_none;
use std::alloc::{AllocError, Global};
use std::net::{Net, TcpListener, TcpStream};
use std::rt::Clock;
use std::sync::Wait;

const POLICY: &[u8] = b"nexus 2\nprincipal alice pa\nprincipal bob pb\nend\n";

// The front of the text has 44 bytes, and its lines then end at 61, 84 and 99.
const WHOLE: &str = "nexus 2
principal alice pa
principal bob pb
1 alice object f
1 alice say alice : ok
2 bob object g
";

// How many of the changes are recorded, where so many bytes go out.
fn lines_within(room: usize) -> u64 {
    match room {
        0..61 => 0,
        61..84 => 1,
        84..99 => 2,
        _ => 3,
    }
}

// Where the text with so many changes ends, where one is synced. Nothing is synced before the first.
fn synced_with(lines: u64) -> usize {
    match lines {
        0 => 0,
        1 => 61,
        2 => 84,
        _ => 99,
    }
}

// The changes, of which so many can be recorded, and one that is refused as ever.
fn steps_of(lines: u64) -> &'static str {
    match lines {
        0 => {
            "alice object f -> Written(Refused { at: 0, refusal: NotRecorded })
alice delete 9 -> Written(Refused { at: 0, refusal: NoSuchLabel })
alice say alice : ok -> Written(Refused { at: 0, refusal: NotRecorded })
bob object g -> Written(Refused { at: 0, refusal: NotRecorded })"
        }
        1 => {
            "alice object f -> Written(Done { at: 1, number: 0 })
alice delete 9 -> Written(Refused { at: 1, refusal: NoSuchLabel })
alice say alice : ok -> Written(Refused { at: 1, refusal: NotRecorded })
bob object g -> Written(Refused { at: 1, refusal: NotRecorded })"
        }
        2 => {
            "alice object f -> Written(Done { at: 1, number: 0 })
alice delete 9 -> Written(Refused { at: 1, refusal: NoSuchLabel })
alice say alice : ok -> Written(Done { at: 2, number: 2 })
bob object g -> Written(Refused { at: 2, refusal: NotRecorded })"
        }
        _ => {
            "alice object f -> Written(Done { at: 1, number: 0 })
alice delete 9 -> Written(Refused { at: 1, refusal: NoSuchLabel })
alice say alice : ok -> Written(Done { at: 2, number: 2 })
bob object g -> Written(Done { at: 3, number: 1 })"
        }
    }
}

// What comes of the changes where so many bytes go out.
fn due(alloc: Global, out: usize) -> Result<String, AllocError> {
    let lines = lines_within(out);
    let (broken, faults) = if out < 99 { (true, 1) } else { (false, 0) };
    let sent = WHOLE.get(..out).unwrap_or(WHOLE);
    let synced = synced_with(lines);
    format!(in alloc;
        "None, seen {lines} {lines}, entries {lines}, broken {broken}, faults {faults}, synced {synced}\n{sent}end"
    )
}

// Whether so many bytes go out of the changes over a sink with such room that fails at this call.
fn goes_out<R: Net<Listener = TcpListener, Stream = TcpStream> + Clock + Wait>(
    rt: &R,
    alloc: Global,
    room: usize,
    fails: u64,
    out: usize,
) -> Result<bool, AllocError> {
    let play = Play {
        policy: POLICY,
        room,
        fails,
        sync_fails: 0,
        steps: steps_of(lines_within(out)),
    };
    Ok(told(rt, alloc, &play)? == due(alloc, out)?)
}

// The first number of bytes of which others go out, where the sink is full behind them, or fails once and could take more. Nothing
// goes out after that. Nothing where there is none.
fn first_other<R: Net<Listener = TcpListener, Stream = TcpStream> + Clock + Wait>(
    rt: &R,
    alloc: Global,
) -> Result<String, AllocError> {
    for out in 0..100usize {
        let full = goes_out(rt, alloc, out, 0, out)?;
        let failed = goes_out(rt, alloc, 1000, out as u64 + 1, out)?;
        if !full || !failed {
            return format!(in alloc; "{out}: full {full}, failed {failed}");
        }
    }
    Ok(String::new(alloc))
}

#[test]
fn a_sink_may_be_full_or_fail_at_each_byte(rt: HostRuntime) -> Result<(), AllocError> {
    assert_none(&rt, first_other(&rt, rt.alloc()))
}

// What comes of the changes where so many of them are synced, and the sync of the next one fails: its line went out.
fn due_unsynced(alloc: Global, lines: u64) -> Result<String, AllocError> {
    let synced = synced_with(lines);
    let sent = WHOLE
        .get(..synced_with(lines.saturating_add(1)))
        .unwrap_or(WHOLE);
    format!(in alloc;
        "None, seen {lines} {lines}, entries {lines}, broken true, faults 1, synced {synced}\n{sent}end"
    )
}

// What comes of the changes otherwise, where the sync of one fails. Nothing where there is no such change.
fn first_recorded<R: Net<Listener = TcpListener, Stream = TcpStream> + Clock + Wait>(
    rt: &R,
    alloc: Global,
) -> Result<String, AllocError> {
    for lines in 0..3u64 {
        let play = Play {
            policy: POLICY,
            room: 1000,
            fails: 0,
            sync_fails: lines + 1,
            steps: steps_of(lines),
        };
        let told = told(rt, alloc, &play)?;
        if told != due_unsynced(alloc, lines)? {
            return Ok(told);
        }
    }
    Ok(String::new(alloc))
}

#[test]
fn a_change_whose_line_is_not_synced_is_not_recorded(rt: HostRuntime) -> Result<(), AllocError> {
    assert_none(&rt, first_recorded(&rt, rt.alloc()))
}

// The first sync fails: another session sees nothing of the change, and no later one is recorded.
const UNSYNCED: &str = "alice object f -> Written(Refused { at: 0, refusal: NotRecorded })
bob call read f -> NoObject { at: 0 }
alice object f -> Written(Refused { at: 0, refusal: NotRecorded })
bob object f -> Written(Refused { at: 0, refusal: NotRecorded })
bob delete 9 -> Written(Refused { at: 0, refusal: NoSuchLabel })";

#[test]
fn nobody_sees_a_change_whose_line_was_not_synced(rt: HostRuntime) -> Result<(), AllocError> {
    let play = Play {
        policy: POLICY,
        room: 1000,
        fails: 0,
        sync_fails: 1,
        steps: UNSYNCED,
    };
    let told = told(&rt, rt.alloc(), &play)?;
    assert_eq!(rt;
        told.as_str(),
        "None, seen 0 0, entries 0, broken true, faults 1, synced 0
nexus 2
principal alice pa
principal bob pb
1 alice object f
end"
    );
    Ok(())
}
