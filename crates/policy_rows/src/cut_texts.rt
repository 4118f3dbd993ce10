//! The text of a policy that was cut: what is recovered, and what is told of a text of which nothing is.
use crate::policies::{error_told, written};
use crate::tables::{holds, text_of};
use journal_text::read_cut;
use std::alloc::{AllocError, Global};

/// The text as it is written after it was recovered.
pub fn recovered(alloc: Global, text: &[u8]) -> Result<String, AllocError> {
    match read_cut(alloc, text) {
        Ok(journal) => {
            let text = written(alloc, &journal);
            drop(journal);
            text
        }
        Err(error) => error_told(alloc, error),
    }
}

/// As `recovered`; what is recovered of that, where it is another text, stands behind it.
pub fn recovered_twice(alloc: Global, text: &[u8]) -> Result<String, AllocError> {
    let told = recovered(alloc, text)?;
    if !told.as_str().starts_with("nexus") {
        return Ok(told);
    }
    let again = recovered(alloc, told.as_bytes())?;
    if again == told {
        Ok(told)
    } else {
        format!(in alloc; "{told} {again}")
    }
}

const WHOLE: &str = "nexus 2
principal alice pa
principal bob pb
authority 3 clock
7 alice object f
7 alice goal read f : alice says ok
7 alice say alice : ok
18446744073709551615 alice proof read f : proof 2 ; 1 label : alice says ok ; end
7 alice bind alice.clock 3
7 alice transfer 3 bob
8 bob delete 3
7 alice noproof read f
7 alice nogoal read f
7 alice unbind alice.clock
end";

// What is to be recovered of a text whose whole lines are these.
fn due(alloc: Global, lines: &[u8]) -> Result<String, AllocError> {
    if lines.is_empty() {
        String::from_str(alloc, "Bad { line: 1 }")
    } else {
        let text = text_of(alloc, lines)?;
        format!(in alloc; "{text}end\n")
    }
}

// The number of the first byte before which a cut loses something.
fn first_lost(alloc: Global) -> Result<Option<usize>, AllocError> {
    let text = WHOLE.as_bytes();
    let mut whole: &[u8] = &[];
    for cut in 0..text.len() {
        let kept = &text[..cut];
        if kept.ends_with(b"\n") {
            whole = kept;
        }
        if recovered_twice(alloc, kept)? != due(alloc, whole)? {
            return Ok(Some(cut));
        }
    }
    Ok(None)
}

#[test]
fn what_was_written_is_recovered_wherever_it_is_cut(rt: HostRuntime) -> Result<(), AllocError> {
    assert_eq!(rt; first_lost(rt.alloc())?, None);
    Ok(())
}

const TABLE: &str = "recover: a last line without its line feed is left out
nexus 2|principal alice pa|1 alice object f|1 ali -> nexus 2|principal alice pa|1 alice object f|end|
nexus 2|principal alice pa|1 alice object f|end| -> nexus 2|principal alice pa|1 alice object f|end|
nexus 1|principal alice pa|1 alice object f| -> nexus 2|principal alice pa|1 alice object f|end|
nexus 2|principal alice pa|1 alice object f -> nexus 2|principal alice pa|end|
nexus 2|principal alice pa|1 alice object f|end -> nexus 2|principal alice pa|1 alice object f|end|
nexus 2|principal alice pa|1 alice object f|en -> nexus 2|principal alice pa|1 alice object f|end|
nexus 2|principal alice pa|1 alice object f|end  -> nexus 2|principal alice pa|1 alice object f|end|
nexus 2|principal alice pa|1 alice object f|end|1 alice object g -> nexus 2|principal alice pa|1 alice object f|end|
nexus 2|principal alice pa|principal alice p -> nexus 2|principal alice pa|end|
nexus 2|principal alice pa -> nexus 2|end|
nexus 2| -> nexus 2|end|
nexus 2|end -> nexus 2|end|
nexus 2|end| -> nexus 2|end|
nexus 2|end|x -> nexus 2|end|
nexus 2|end\r -> nexus 2|end|

recover: the lowest wrong line is told
 -> Bad { line: 1 }
nexus 2 -> Bad { line: 1 }
nex -> Bad { line: 1 }
end -> Bad { line: 1 }
end| -> Bad { line: 1 }
| -> Bad { line: 1 }
nexus 3| -> Bad { line: 1 }
nexus 2\r|principal alice pa\r|end\r| -> Bad { line: 1 }
nexus 2|principal alice pa\r| -> Bad { line: 2 }
nexus 2|end\r| -> Bad { line: 2 }
nexus 2||end| -> Bad { line: 2 }
nexus 2|| -> Bad { line: 2 }
nexus 2|end | -> Bad { line: 2 }
nexus 2|en| -> Bad { line: 2 }
nexus 2|end|| -> Bad { line: 3 }
nexus 2|end||x -> Bad { line: 3 }
nexus 2|end|end -> Bad { line: 3 }
nexus 2|end|end| -> Bad { line: 3 }
nexus 2|end|principal alice pa| -> Bad { line: 3 }
nexus 2|x|principal alice pa|end -> Bad { line: 2 }
nexus 2|principal alice pa|principal alice pb| -> Bad { line: 3 }
nexus 2|principal alice pa|1 alice object f|1 ali|1 alice object g| -> Bad { line: 4 }
nexus 2|principal alice pa|1 alice object f|1 alice object f|1 alice obj -> Refused { line: 4, number: 9 }
nexus 2|principal alice pa|1 alice nogoal read f|x| -> Refused { line: 3, number: 8 }

recover letters: texts have a limit
67108865 -> TooLong
67108864 -> Bad { line: 1 }";

#[test]
fn cut_texts_are_recovered_or_told_by_their_wrong_line(rt: HostRuntime) -> Result<(), AllocError> {
    holds(&rt, rt.alloc(), TABLE)
}
