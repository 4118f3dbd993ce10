//! What `script` writes.
ghost use Rattle.std.specs.Prelude.{◌≡◌, IfOk};
ghost use Rattle.policy_history.specs.Values.{entry_trees};
ghost use Rattle.policy_script.specs.ScriptText.{script_text};

use journal_text::{print_policy, reply_line};
use nx_io::Bytes;
use policy_history::Journal;
use session_wire::Reply;
use std::alloc::{AllocError, Global};

/// The lines of the replies, and then the text of the policy. An `Err` is want of memory.
pub fn script_text(alloc: Global, replies: &[Reply], journal: &Journal) -> Result<Bytes, AllocError>
    ensures { IfOk result (λ text. text ≡ script_text replies.now journal.now.head (entry_trees journal.now.entries)) }
{
    let mut text = Bytes::new(alloc);
    for reply in replies {
        let line = reply_line(alloc, reply)?;
        text.extend(line.as_slice())?;
        text.extend(b"\n")?;
    }
    let policy = print_policy(alloc, journal)?;
    text.extend(policy.as_slice())?;
    Ok(text)
}
