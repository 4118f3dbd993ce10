//! Reading the head of a policy's text.
ghost use Rattle.std.specs.Prelude.{◌≡◌, ◌≤◌, ◌++◌, ◌∷◌, ◌↔◌, ◌⊎◌, [], IfErr, IfOk, IsTrue, OnOk, codes, length};
ghost use Rattle.policy_history.specs.Heads.{AreAuthorities, ArePrincipals};
ghost use Rattle.policy_history.specs.declared.heads.Principal.{Principal};
ghost use Rattle.policy_history.specs.declared.heads.Authority.{Authority};
ghost use Rattle.journal_text.specs.PolicyText.{Follows, Stage, most_bytes, open_with};
ghost use Rattle.journal_text.specs.Inner.PolicyReading.{IsAuthorityOf, IsHeadError, IsHeadLine, IsHeadRead, IsPrincipalOf};

use crate::policy_reader::PolicyError;
use crate::policy_words::split_word;
use crate::request_lines::LineError;
use nal_term::{ListError, Name, NameError, Secret};
use nx_io::Bytes;
use policy_history::{Authorities, Authority, Head, Principal, Principals};
use std::alloc::{AllocError, Global};
use text_lines::{after_word, first_line, read_number};

/// Reads the header and the lines of the head: the head, the text that follows it, and how many lines it has. The text
/// that follows begins with no further line of a head.
pub fn read_head(alloc: Global, text: &[u8]) -> Result<(Head, &[u8], u64), PolicyError>
    requires { length text.now ≤ most_bytes }
    ensures ok { IfOk result (λ read. IsHeadRead text.now read.0 read.1.now read.2) }
    ensures err { IfErr result (IsHeadError text.now) }
{
    let (header, mut rest) = first_line(text);
    if !is_header(header) {
        return Err(PolicyError::Bad { line: 1 });
    }
    let mut head = Head {
        principals: Principals::new(alloc),
        authorities: Authorities::new(alloc),
    };
    let mut lines = 1u64;
    loop {
        let (line, after) = first_line(rest);
        if !is_head_line(line) {
            return Ok((head, rest, lines));
        }
        lines += 1;
        match add_line(alloc, &mut head, line) {
            Ok(()) => {}
            Err(LineError::Bad) => return Err(PolicyError::Bad { line: lines }),
            Err(LineError::Memory) => return Err(PolicyError::Memory),
        }
        rest = after;
    }
}

/// Whether the line is the first of a policy's text.
fn is_header(line: &[u8]) -> bool
    ensures { IsTrue result ↔ ((line.now ≡ codes "nexus 1") ⊎ (line.now ≡ codes "nexus 2")) }
{
    line == "nexus 1".as_bytes() || line == "nexus 2".as_bytes()
}

/// Whether the line begins as that of a principal or of an authority does.
fn is_head_line(line: &[u8]) -> bool
    ensures { IsTrue result ↔ IsHeadLine line.now }
{
    match after_word(line, "principal ") {
        Some(_) => true,
        None => match after_word(line, "authority ") {
            Some(_) => true,
            None => false,
        },
    }
}

/// Adds the principal or the authority of a line to the head. `Bad` exactly where no such line may stand there.
fn add_line(alloc: Global, head: &mut Head, line: &[u8]) -> Result<(), LineError>
    requires { IsHeadLine line.now }
    ensures ok { OnOk result (Follows (open_with head.old []) line.now (open_with head.new [])) }
    ensures bad { result ≡ Err LineError.Bad → (next : Stage) → ¬ Follows (open_with head.old []) line.now next }
{
    if let Some(text) = after_word(line, "principal ") {
        if head.authorities.count() > 0 {
            return Err(LineError::Bad);
        }
        return add_principal(alloc, &mut head.principals, text);
    }
    let Some(text) = after_word(line, "authority ") else {
        return Err(LineError::Bad);
    };
    add_authority(alloc, &mut head.authorities, text)
}

/// Adds the principal of a name and a secret. `Bad` exactly where the text is not that of one that may be added.
fn add_principal(alloc: Global, principals: &mut Principals, text: &[u8]) -> Result<(), LineError>
    ensures ok { OnOk result
        ((p : Principal) × IsPrincipalOf text.now p × (principals.new ≡ principals.old ++ p ∷ [])) }
    ensures bad { result ≡ Err LineError.Bad → (p : Principal) → IsPrincipalOf text.now p
        → ¬ ArePrincipals (principals.old ++ p ∷ []) }
    ensures principals { OnOk result (ArePrincipals principals.new) }
{
    let principal = match read_principal(alloc, text) {
        Ok(principal) => principal,
        Err(error) => return Err(error),
    };
    let pushed = principals.push(principal);
    let _count = principals.count();
    match pushed {
        Ok(()) => Ok(()),
        Err(ListError::Bound) => Err(LineError::Bad),
        Err(ListError::Memory) => Err(LineError::Memory),
    }
}

/// The principal of a name and a secret. `Bad` exactly where the text is that of none.
fn read_principal(alloc: Global, text: &[u8]) -> Result<Principal, LineError>
    ensures ok { IfOk result (λ p. IsPrincipalOf text.now p) }
    ensures only { IfOk result (λ p. (other : Principal) → IsPrincipalOf text.now other → other ≡ p) }
    ensures bad { result ≡ Err LineError.Bad → (p : Principal) → ¬ IsPrincipalOf text.now p }
{
    let Some((name, secret)) = split_word(text) else {
        return Err(LineError::Bad);
    };
    let name = match Name::of(alloc, name) {
        Ok(name) => name,
        Err(NameError::Bad) => return Err(LineError::Bad),
        Err(NameError::Memory) => return Err(LineError::Memory),
    };
    match Secret::of(alloc, secret) {
        Ok(secret) => Ok(Principal { name, secret }),
        Err(NameError::Bad) => Err(LineError::Bad),
        Err(NameError::Memory) => Err(LineError::Memory),
    }
}

/// Adds the authority of a port and an address. `Bad` exactly where the text is not that of one that may be added.
fn add_authority(alloc: Global, authorities: &mut Authorities, text: &[u8]) -> Result<(), LineError>
    ensures ok { OnOk result
        ((a : Authority) × IsAuthorityOf text.now a × (authorities.new ≡ authorities.old ++ a ∷ [])) }
    ensures bad { result ≡ Err LineError.Bad → (a : Authority) → IsAuthorityOf text.now a
        → ¬ AreAuthorities (authorities.old ++ a ∷ []) }
    ensures authorities { OnOk result (AreAuthorities authorities.new) }
{
    let authority = match read_authority(alloc, text) {
        Ok(authority) => authority,
        Err(error) => return Err(error),
    };
    let pushed = authorities.push(authority);
    let _count = authorities.count();
    match pushed {
        Ok(()) => Ok(()),
        Err(ListError::Bound) => Err(LineError::Bad),
        Err(ListError::Memory) => Err(LineError::Memory),
    }
}

/// The authority of a port and an address, whatever these are. `Bad` exactly where the text is that of none.
fn read_authority(alloc: Global, text: &[u8]) -> Result<Authority, LineError>
    ensures ok { IfOk result (λ a. IsAuthorityOf text.now a) }
    ensures only { IfOk result (λ a. (other : Authority) → IsAuthorityOf text.now other → other ≡ a) }
    ensures bad { result ≡ Err LineError.Bad → (a : Authority) → ¬ IsAuthorityOf text.now a }
{
    let Some((port, address)) = split_word(text) else {
        return Err(LineError::Bad);
    };
    let Some(port) = read_number(port) else {
        return Err(LineError::Bad);
    };
    match Bytes::of(alloc, address) {
        Ok(address) => Ok(Authority { port, address }),
        Err(AllocError) => Err(LineError::Memory),
    }
}
