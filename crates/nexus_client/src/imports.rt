//! The input of `import`.
ghost use Rattle.std.specs.Prelude.{◌≡◌, ◌≢◌, ◌≤◌, IfErr, IfOk, List, length, map, ℕ};
ghost use Rattle.nal_term.specs.Names.{IsName};
ghost use Rattle.nal_term.specs.Secrets.{IsSecret};
ghost use Rattle.nal_term.specs.Trees.{formula_tree};
ghost use Rattle.nal_parse.specs.Canonical.{FormulaFits};
ghost use Rattle.run_streams.specs.Runs.{most_bytes};
ghost use Rattle.session_wire.specs.Frames.{request_frame};
ghost use Rattle.peer_labels.specs.Requests.{bundle_requests, label_request};
ghost use Rattle.nexus_client.specs.Imports.{AreFramesOfImport, IsPeerLine};
ghost use Rattle.nexus_client.specs.Inner.Reading.{IsWrongImport};

use crate::requests::{Requests, RequestsError};
use journal_text::{LineError, split_word};
use nal_parse::print_formula;
use nal_term::{Formula, Name, NameError, Secret};
use nx_io::Bytes;
use peer_labels::{Bundle, BundleError, read_bundle};
use session_wire::{Request, write_request};
use std::alloc::{AllocError, Global};
use text_lines::{after_word, first_line};

/// Reads the line of a peer and a bundle, at most 67,108,864 bytes together: the frames of the requests by which the peer says the labels.
/// `Wrong` exactly where the text has not this form, with the lowest line that is wrong.
pub fn read_import(alloc: Global, text: &[u8]) -> Result<Requests, RequestsError>
    requires { length text.now ≤ most_bytes }
    ensures ok { IfOk result (AreFramesOfImport text.now) }
    ensures wrong { IfErr result (IsWrongImport text.now) }
    ensures refused { IfErr result (λ e. e ≢ RequestsError.Memory →
        (frames : List (List ℕ)) → ¬ AreFramesOfImport text.now frames) }
{
    let (first, after) = first_line(text);
    let (name, secret) = match read_peer(alloc, first) {
        Ok(peer) => peer,
        Err(LineError::Bad) => return Err(RequestsError::Wrong { line: 1 }),
        Err(LineError::Memory) => return Err(RequestsError::Memory),
    };
    let bundle = match read_bundle(alloc, after) {
        Ok(bundle) => bundle,
        Err(BundleError::Bad { line }) => return Err(RequestsError::Wrong { line: line + 1 }),
        Err(BundleError::TooLong) => unreachable!(),
        Err(BundleError::Memory) => return Err(RequestsError::Memory),
    };
    match requests_of(alloc, name, secret, &bundle) {
        Ok(requests) => Ok(requests),
        Err(_) => Err(RequestsError::Memory),
    }
}

/// The name and the secret of a peer's line. `Bad` exactly where the line is none.
fn read_peer(alloc: Global, line: &[u8]) -> Result<(Name, Secret), LineError>
    ensures ok { IfOk result (λ peer. IsPeerLine line.now peer.0 peer.1) }
    ensures only { IfOk result (λ peer.
        (name secret : List ℕ) → IsPeerLine line.now name secret → (name ≡ peer.0) × (secret ≡ peer.1)) }
    ensures bad { IfErr result (λ e. e ≢ LineError.Memory →
        (name secret : List ℕ) → ¬ IsPeerLine line.now name secret) }
{
    let Some(peer) = after_word(line, "peer ") else {
        return Err(LineError::Bad);
    };
    let Some((name, secret)) = split_word(peer) else {
        return Err(LineError::Bad);
    };
    let name = match Name::of(alloc, name) {
        Ok(name) => name,
        Err(NameError::Bad) => return Err(LineError::Bad),
        Err(NameError::Memory) => return Err(LineError::Memory),
    };
    match Secret::of(alloc, secret) {
        Ok(secret) => Ok((name, secret)),
        Err(NameError::Bad) => Err(LineError::Bad),
        Err(NameError::Memory) => Err(LineError::Memory),
    }
}

/// The frames of the requests by which a peer opens a session and says the labels of a bundle, in order. An `Err` is want of memory.
fn requests_of(
    alloc: Global,
    name: Name,
    secret: Secret,
    bundle: &Bundle,
) -> Result<Requests, AllocError>
    requires name { IsName name }
    requires secret { IsSecret secret }
    ensures { IfOk result (λ frames.
        frames ≡ map request_frame (bundle_requests name secret (map formula_tree bundle.now))) }
{
    let peer = Bytes::of(alloc, name.as_slice())?;
    let mut requests = Requests::new(alloc);
    let hello = Request::Hello { name, secret };
    requests.push(write_request(alloc, &hello)?)?;
    for label in bundle.labels() {
        requests.push(label_frame(alloc, &peer, label)?)?;
    }
    Ok(requests)
}

/// The frame of the request by which the peer of this name says a label. An `Err` is want of memory.
fn label_frame(alloc: Global, peer: &Bytes, label: &Formula) -> Result<Bytes, AllocError>
    requires peer { length peer.now ≤ 64 }
    requires label { FormulaFits (formula_tree label.now) }
    ensures { IfOk result (λ frame. frame ≡ request_frame (label_request peer.now (formula_tree label.now))) }
{
    let request = Request::Say {
        principal: Bytes::of(alloc, peer.as_slice())?,
        formula: print_formula(alloc, label)?,
    };
    write_request(alloc, &request)
}
