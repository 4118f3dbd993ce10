// Links: generic code over one in memory.
ghost use Rattle.std.specs.Prelude.{◌≡◌, false};

use super::crosses;
use crate::tables::hold;
use crate::texts::{letters, number, numbers, text_of};
use nx_io::{Got, Link, MemLink, Reach, send_whole};
use std::alloc::{AllocError, Global};

// Sends back what a link gives, in at most so many takes, takes again after a fault, and closes at the end.
fn echo<L: Link>(link: &mut L, takes: u64) -> Reach
    requires { L.closed link.old ≡ false }
{
    let mut buffer = [0; 16];
    for _ in 0..takes {
        match link.take(&mut buffer) {
            Got::Bytes(count) => match send_whole(link, &buffer[..count]) {
                Reach::Ready => {}
                Reach::Failed => return Reach::Failed,
            },
            Got::End => {
                link.close();
                return Reach::Ready;
            }
            Got::Failed => {}
        }
    }
    Reach::Failed
}

// Links in memory by what they give, how much room they have, how many bytes go in a call, and the takes and sends that fail. How far
// sending back comes, what is sent, how many bytes are left, how often the link fails, and whether it is closed.
// Takes of three bytes, of which the second fails; one byte a call, and the fifth send fails after four bytes; no room for the last
// three bytes; takes and sends that are counted apart.
const LINKS: &str = "abcdefgh 8 8 - - -> Ready abcdefgh 0 0 true
abcdefgh 8 3 2 - -> Ready abcdefgh 0 1 true
abcdefgh 8 1 - 5 -> Failed abcd 3 1 false
abcdefgh 5 8 - - -> Failed abcde 0 1 false
abcdefgh 8 2 1,2 1 -> Failed  6 3 false";

pub fn told(alloc: Global, row: &str) -> Result<String, AllocError> {
    let words: Vec<&str> = row.split(' ').collect(alloc)?;
    match words.as_slice() {
        [left, room, piece, takes, sends] => {
            told_of_link(alloc, left, (number(room), number(piece)), takes, sends)
        }
        _ => String::from_str(alloc, "no link"),
    }
}

fn told_of_link(
    alloc: Global,
    left: &str,
    (room, piece): (usize, usize),
    takes: &str,
    sends: &str,
) -> Result<String, AllocError> {
    let takes = numbers(alloc, takes)?;
    let sends = numbers(alloc, sends)?;
    let (takes, sends) = (takes.as_slice(), sends.as_slice());
    match MemLink::new(alloc, letters(left), room, piece.max(1), takes, sends) {
        Ok(mut link) => {
            let told = sent_back(alloc, &mut link);
            drop(link);
            told
        }
        Err(AllocError) => Err(AllocError),
    }
}

fn sent_back(alloc: Global, link: &mut MemLink) -> Result<String, AllocError>
    requires { link.old.closed ≡ false }
{
    crosses(link);
    let reach = echo(link, 16);
    let (sent, left) = (text_of(link.sent()), link.left().len());
    let (faults, closed) = (link.faults(), link.is_closed());
    format!(in alloc; "{reach:?} {sent} {left} {faults} {closed}")
}

fn is_told_once(link: &mut MemLink) -> bool {
    let before = link.is_admitted();
    link.admit();
    !before && link.is_admitted() && is_untouched(link)
}

fn is_untouched(link: &MemLink) -> bool {
    link.left() == b"ab".as_slice()
        && link.sent().is_empty()
        && link.faults() == 0
        && !link.is_closed()
}

#[test]
fn a_link_is_told_that_its_peer_is_admitted(rt: HostRuntime) {
    let is_told = match MemLink::new(rt.alloc(), b"ab", 8, 8, &[], &[]) {
        Ok(mut link) => {
            let is_told = is_told_once(&mut link);
            drop(link);
            is_told
        }
        Err(AllocError) => false,
    };
    assert!(rt; is_told);
}

#[test]
fn a_memory_link_sends_back_and_fails_where_it_is_told(rt: HostRuntime) -> Result<(), AllocError> {
    hold(&rt, rt.alloc(), "link", LINKS)
}
