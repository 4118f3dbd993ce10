//! Frames of requests and replies, written by hand after `docs/FORMATS.md`, "Frames", and the words that name them.
use crate::tables::number;
use std::alloc::{AllocError, Global};
use text_lines::read_number;

// Each name stands before its bytes. The names of replies, and `see`, stand for a length and a kind, without the numbers that follow.
// Last come policies.
const NAMED: &str = "object = \0\0\0\x04\x05\0\x01f|\
    refused = \0\0\0\x11E|\
    welcome = \0\0\0\x11A|\
    done = \0\0\0\x11B|\
    allowed = \0\0\0\x19C|\
    denied = \0\0\0!D|\
    down = \0\0\0\x11F|\
    nomemory = \0\0\0\x01G|\
    bad = \0\0\0\x09H|\
    hello = \0\0\0\x0c\x01\0\x05alice\0\x02pa|\
    call = \0\0\0\x12\x0c\0\x04read\0\x01f\0\0\0\0\0\0\0\0|\
    goal = \0\0\0\x19\x06\0\x04read\0\x01f\0\x0dalice says ok|\
    label = \0\0\0\x0c\x02\0\x05alice\0\x02ok|\
    proof = \0\0\0\x33\x08\0\x04read\0\x01f\0\x27proof 1 ; 1 label : alice says ok ; end|\
    true_goal = \0\0\0\x10\x06\0\x04read\0\x01f\0\x04true|\
    true_proof = \0\0\0\x2b\x08\0\x04read\0\x01f\0\x1fproof 1 ; 1 true_i : true ; end|\
    no_goal = \0\0\0\x0a\x07\0\x04read\0\x01f|\
    no_proof = \0\0\0\x0a\x09\0\x04read\0\x01f|\
    delete = \0\0\0\x09\x04\0\0\0\0\0\0\0\x03|\
    other_label = \0\0\0\x0f\x02\0\x05alice\0\x05other|\
    write_goal = \0\0\0\x11\x06\0\x05write\0\x01f\0\x04true|\
    write_proof = \0\0\0\x2c\x08\0\x05write\0\x01f\0\x1fproof 1 ; 1 true_i : true ; end|\
    write_7 = \0\0\0\x13\x0c\0\x05write\0\x01f\0\0\0\0\0\0\0\x07|\
    goal_0 = \0\0\0\x11\x06\0\x04read\0\x02o0\0\x04true|\
    proof_0 = \0\0\0\x2c\x08\0\x04read\0\x02o0\0\x1fproof 1 ; 1 true_i : true ; end|\
    call_0 = \0\0\0\x13\x0c\0\x04read\0\x02o0\0\0\0\0\0\0\0\0|\
    goal_255 = \0\0\0\x13\x06\0\x04read\0\x04o255\0\x04true|\
    goal_256 = \0\0\0\x13\x06\0\x04read\0\x04o256\0\x04true|\
    unbind = \0\0\0\x08\x0b\0\x05alice|\
    bind_3 = \0\0\0\x10\x0a\0\x05alice\0\0\0\0\0\0\0\x03|\
    bobs_label = \0\0\0\x0a\x02\0\x03bob\0\x02ok|\
    give_1 = \0\0\0\x0e\x03\0\0\0\0\0\0\0\x01\0\x03bob|\
    other_object = \0\0\0\x04\x05\0\x01g|\
    see = \0\0\0\x09\x0d|\
    seen = \0\0\0\x09I|\
    hello_wrong = \0\0\0\x0c\x01\0\x05alice\0\x02xx|\
    hello_fs = \0\0\0\x09\x01\0\x02fs\0\x02pf|\
    hello_bob = \0\0\0\x0a\x01\0\x03bob\0\x02pb|\
    hello_ntp = \0\0\0\x0a\x01\0\x03ntp\0\x02pn|\
    may_goal = \0\0\0!\x06\0\x04read\0\x01f\0\x15fs says may(?subject)|\
    may_label = \0\0\0\x0f\x02\0\x02fs\0\x08may(bob)|\
    may_proof = \0\0\06\x08\0\x04read\0\x01f\0*proof 1 ; 1 label : fs says may(bob) ; end|\
    give = \0\0\0\x0e\x03\0\0\0\0\0\0\0\x03\0\x03bob|\
    bind = \0\0\0\x0e\x0a\0\x03ntp\0\0\0\0\0\0\0\x01|\
    time_goal = \0\0\0\x26\x06\0\x04read\0\x01f\0\x1afs says TimeNow < 20110319|\
    time_label = \0\0\0\x22\x02\0\x02fs\0\x1bntp speaksfor fs on TimeNow|\
    both_goal = \0\0\0\x25\x06\0\x04read\0\x01f\0\x19ntp says a and ntp says b|\
    both_proof = \0\0\0\x6d\x08\0\x04read\0\x01f\0\x61proof 1 ; 1 ask : ntp says a ; 2 ask : ntp says b ; \
    3 and_i 1 2 : ntp says a and ntp says b ; end|\
    alice = nexus 1\nprincipal alice pa\nend\n|\
    ntp = nexus 1\nprincipal ntp pn\nauthority 1 mem\nend\n|\
    fs_and_bob = nexus 1\nprincipal fs pf\nprincipal bob pb\nend\n|\
    fs_bob_and_ntp = nexus 1\nprincipal fs pf\nprincipal bob pb\nprincipal ntp pn\nauthority 1 mem\nend\n|";

// Its length has bytes that no text has.
const TIME_PROOF: &[u8] = b"\0\0\0\xcb\x08\0\x04read\0\x01f\
    \0\xbfproof 1 ; 1 label : fs says ntp speaksfor fs on TimeNow ; \
    2 handoff_on 1 : ntp speaksfor fs on TimeNow ; \
    3 ask : ntp says TimeNow < 20110319 ; \
    4 sf_on_e 2 3 : fs says TimeNow < 20110319 ; end";

fn named(name: &str) -> Option<&'static [u8]> {
    if name == "time_proof" {
        return Some(TIME_PROOF);
    }
    for row in NAMED.split('|') {
        let (key, bytes) = row.split_once(" = ").unwrap_or(("", ""));
        if key == name {
            return Some(bytes.as_bytes());
        }
    }
    None
}

// A number stands for eight bytes, one behind `#` for one byte, and letters behind a quote for themselves.
fn push_word(bytes: &mut Vec<u8>, word: &str) -> Result<(), AllocError> {
    if let Some(number) = read_number(word.as_bytes()) {
        return bytes.extend_from_slice(&number.to_be_bytes());
    }
    if let Some(byte) = word.strip_prefix('#') {
        return bytes.extend_from_slice(&[(number(byte) % 256) as u8]);
    }
    if let Some(letters) = word.strip_prefix('\'') {
        return bytes.extend_from_slice(letters.as_bytes());
    }
    match named(word) {
        Some(frame) => bytes.extend_from_slice(frame),
        None => Err(AllocError),
    }
}

fn push_words(bytes: &mut Vec<u8>, words: &str) -> Result<(), AllocError> {
    for word in words.split_whitespace() {
        push_word(bytes, word)?;
    }
    Ok(())
}

/// The bytes that the words stand for, as often as a number before them and a star say.
pub fn bytes_of(alloc: Global, text: &str) -> Result<Vec<u8>, AllocError> {
    let (count, words) = text.split_once(" * ").unwrap_or(("1", text));
    let mut once = Vec::new(alloc);
    push_words(&mut once, words)?;
    let mut bytes = Vec::new(alloc);
    for _ in 0..number(count) {
        bytes.extend_from_slice(once.as_slice())?;
    }
    Ok(bytes)
}
