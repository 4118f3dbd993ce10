//! The head of a policy: the principals with their secrets, and the authorities with their ports.
ghost use Rattle.std.specs.Prelude.{◌≡◌, ◌↔◌, ◌++◌, ◌∷◌, ◌≤◌, ◌<◌, [], length, slice_get, IfOk, IfSome, IsTrue, OnOk, OnErr, nat_eq};
ghost use Rattle.std.specs.List.{list_any};
ghost use Rattle.std.specs.Option.{option_copied};
ghost use Rattle.policy_history.specs.Events.{admitted, name_of, numbered};
ghost use Rattle.policy_history.specs.Heads.{AreAuthorities, ArePrincipals, IsAuthority};
ghost use Rattle.nal_term.specs.Names.{IsName};
ghost use Rattle.nal_term.specs.TreeKeys.{same_bytes};

use indexmap::IndexSet;
use keyed_hash::{HashKey, KeyedHash};
use nal_term::{ListError, Name, NameError, Secret, is_secret};
use nx_io::Bytes;
use std::alloc::{AllocError, Global};
use std::marker::Model;

/// Someone who can make statements and requests, and the secret that proves it.
#[derive(Drop)]
pub struct Principal {
    pub name: Name,
    pub secret: Secret,
}

/// Someone who can be asked whether a statement holds now: under which port of the policy, and where.
#[derive(Drop)]
pub struct Authority {
    pub port: u64,
    pub address: Bytes,
}

/// How many principals a policy may have.
pub const MOST_PRINCIPALS: usize = 16_384;

/// The principals of a policy, numbered from 0: at most 16,384, each with a name of its own, which is found in a time that does
/// not grow with their number. Contracts see the list of them.
#[derive(Drop)]
pub struct Principals {
    alloc: Global,
    items: Vec<Principal>,
    // Their names, each in the place of its principal.
    names: IndexSet<Name, KeyedHash>,
}

impl Model for Principals {
    ghost use Rattle.std.specs.Prelude.{List};
    ghost use Rattle.policy_history.specs.declared.heads.Principal.{Principal};
    ghost use Rattle.policy_history.specs.Inner.Named.{AreNamed};

    ghost Value = { List Principal };

    ghost view = { λ p. p.items.items };

    ghost invariant = { λ p. AreNamed p.items.items p.names.keys };
}

/// The authorities of a policy: at most 16, each with a port of its own from 0 to 15 and an address of 1 to 64 bytes
/// from 0x21 to 0x7E. Contracts see the list of them.
#[derive(Drop)]
pub struct Authorities {
    items: Vec<Authority>,
}

impl Model for Authorities {
    ghost use Rattle.std.specs.Prelude.{List};
    ghost use Rattle.policy_history.specs.declared.heads.Authority.{Authority};
    ghost use Rattle.policy_history.specs.Heads.{AreAuthorities};

    ghost Value = { List Authority };

    ghost view = { λ a. a.items.items };

    ghost invariant = { λ a. AreAuthorities a.items.items };
}

/// The head of a policy, which is fixed while a service runs. `docs/FORMATS.md`, "Policy text", states its form.
#[derive(Drop)]
pub struct Head {
    pub principals: Principals,
    pub authorities: Authorities,
}

impl Principal {
    /// A copy of the principal. An `Err` says that there was no memory for it.
    pub fn copy(&self, alloc: Global) -> Result<Principal, AllocError>
        ensures { IfOk result (λ copy. copy ≡ self.now) }
    {
        Ok(Principal {
            name: self.name.copy(alloc)?,
            secret: self.secret.copy(alloc)?,
        })
    }
}

impl Principals {
    /// No principals. It takes no memory.
    pub fn new(alloc: Global) -> Principals
        ensures { result ≡ [] }
    {
        Principals {
            alloc,
            items: Vec::new(alloc),
            // The names are those of the operator's own text, so no peer chooses which of them collide.
            names: IndexSet::with_hasher(alloc, KeyedHash::new(HashKey::new(0, 0))),
        }
    }

    /// Adds a principal at the end. `Bound` exactly where there are 16,384 or one has its name, `Memory` where there was
    /// none for it; an `Err` changes nothing.
    pub fn push(&mut self, item: Principal) -> Result<(), ListError>
        ensures ok { OnOk result (self.new ≡ self.old ++ item ∷ []) }
        ensures bound { (result ≡ Err ListError.Bound) ↔ ¬ ArePrincipals (self.old ++ item ∷ []) }
        ensures err { OnErr result (self.new ≡ self.old) }
    {
        if !self.takes(&item) {
            return Err(ListError::Bound);
        }
        match self.add(item) {
            Ok(()) => Ok(()),
            Err(AllocError) => Err(ListError::Memory),
        }
    }

    // Whether there may be this one more.
    fn takes(&self, item: &Principal) -> bool
        ensures { IsTrue result ↔ ArePrincipals (self.now ++ item.now ∷ []) }
    {
        if self.items.len() >= MOST_PRINCIPALS {
            return false;
        }
        match self.number_of(&item.name) {
            Some(_) => false,
            None => true,
        }
    }

    // Adds a principal at the end.
    fn add(&mut self, item: Principal) -> Result<(), AllocError>
        requires { ArePrincipals (self.old ++ item ∷ []) }
        ensures ok { OnOk result (self.new ≡ self.old ++ item ∷ []) }
        ensures err { OnErr result (self.new ≡ self.old) }
    {
        self.items.reserve(1)?;
        self.names.reserve(1)?;
        let name = Name::copy_of(self.alloc, item.name.as_slice())?;
        self.names.insert(name).unwrap();
        self.items.push(item).unwrap();
        Ok(())
    }

    /// How many principals there are: at most 16,384, no two of one name.
    pub fn count(&self) -> u64
        ensures count { result ≡ length self.now }
        ensures bound { result ≤ 16384 }
        ensures principals { ArePrincipals self.now }
    {
        self.items.len() as u64
    }

    /// The principal with this number, from 0. None exactly where there is none.
    pub fn get(&self, number: u64) -> Option<&Principal>
        ensures { option_copied result ≡ slice_get self.now number }
    {
        if number < self.count() {
            Some(&self.items[number as usize])
        } else {
            None
        }
    }

    /// The principals as a slice.
    pub fn as_slice(&self) -> &[Principal]
        ensures { result.now ≡ self.now }
    {
        self.items.as_slice()
    }

    /// The name of the principal with this number.
    pub fn name(&self, number: u32) -> &Name
        requires { number < length self.now }
        ensures { result.now ≡ name_of self.now number }
    {
        &self.items[number as usize].name
    }

    /// The number of the principal with this name. None exactly where nobody has it.
    pub fn number_of(&self, name: &Name) -> Option<u32>
        ensures number { result ≡ numbered self.now name.now }
        ensures within { IfSome result (λ p. p < length self.now) }
    {
        match self.names.get_index_of(name) {
            Some(place) => Some(place as u32),
            None => None,
        }
    }

    /// The number of the principal whose name are these bytes. None exactly where nobody has it; an `Err` is want of memory.
    pub fn number_of_text(&self, alloc: Global, name: &[u8]) -> Result<Option<u32>, AllocError>
        ensures number { IfOk result (λ number. number ≡ numbered self.now name.now) }
        ensures within { IfOk result (λ number. IfSome number (λ p. p < length self.now)) }
        ensures named { IfOk result (λ number. IfSome number (λ p. IsName name.now)) }
    {
        if self.items.is_empty() {
            return Ok(None);
        }
        match Name::of(alloc, name) {
            Ok(name) => Ok(self.number_of(&name)),
            Err(NameError::Bad) => Ok(None),
            Err(NameError::Memory) => Err(AllocError),
        }
    }

    /// The number of the principal with this name and this secret. None exactly where nobody has both. One secret is compared,
    /// in a time that does not hang on where it differs.
    pub fn admit(&self, name: &Name, secret: &Secret) -> Option<u32>
        ensures number { result ≡ admitted self.now name.now secret.now }
        ensures within { IfSome result (λ p. p < length self.now) }
    {
        match self.number_of(name) {
            None => None,
            Some(number) => {
                let own = &self.items[number as usize].secret;
                if is_same_secret(secret.as_slice(), own.as_slice()) {
                    Some(number)
                } else {
                    None
                }
            }
        }
    }

    /// A copy of the principals. An `Err` says that there was no memory for it.
    pub fn copy(&self, alloc: Global) -> Result<Principals, AllocError>
        ensures { IfOk result (λ copy. copy ≡ self.now) }
    {
        let mut copy = Principals::new(alloc);
        for item in &self.items {
            copy.add(item.copy(alloc)?)?;
        }
        Ok(copy)
    }
}

// Whether two secrets are the same. Where they are as long, each byte is looked at, wherever the first difference is: `==` would be
// proved as well, and tell by its time how much of a secret was guessed.
fn is_same_secret(told: &[u8], own: &[u8]) -> bool
    ensures { result ≡ same_bytes told.now own.now }
{
    if told.len() != own.len() {
        return false;
    }
    let mut same = true;
    for place in 0..own.len() {
        same &= told[place] == own[place];
    }
    same
}

// Whether one of the authorities has this port.
fn is_port_of(items: &[Authority], port: u64) -> bool
    ensures { result ≡ list_any (λ a. nat_eq port a.port) items.now }
{
    items.iter().any(|item| port == item.port)
}

// Whether the authorities may have this one more.
fn takes_authority(items: &[Authority], item: &Authority) -> bool
    requires { AreAuthorities items.now }
    ensures { IsTrue result ↔ AreAuthorities (items.now ++ item.now ∷ []) }
{
    if items.len() >= 16 {
        return false;
    }
    if !is_formed(item) {
        return false;
    }
    !is_port_of(items, item.port)
}

// Whether the port is one of 0 to 15, and the address has its form.
fn is_formed(item: &Authority) -> bool
    ensures { IsTrue result ↔ IsAuthority item.now }
{
    item.port < 16 && is_secret(item.address.as_slice())
}

impl Authority {
    /// A copy of the authority. An `Err` says that there was no memory for it.
    pub fn copy(&self, alloc: Global) -> Result<Authority, AllocError>
        ensures { IfOk result (λ copy. copy ≡ self.now) }
    {
        Ok(Authority {
            port: self.port,
            address: Bytes::of(alloc, self.address.as_slice())?,
        })
    }
}

impl Authorities {
    /// No authorities. It takes no memory.
    pub fn new(alloc: Global) -> Authorities
        ensures { result ≡ [] }
    {
        Authorities {
            items: Vec::new(alloc),
        }
    }

    /// Adds an authority at the end. `Bound` exactly where there are 16, one has its port, the port is over 15, or the
    /// address has not the form; `Memory` where there was none for it. An `Err` changes nothing.
    pub fn push(&mut self, item: Authority) -> Result<(), ListError>
        ensures ok { OnOk result (self.new ≡ self.old ++ item ∷ []) }
        ensures bound { (result ≡ Err ListError.Bound) ↔ ¬ AreAuthorities (self.old ++ item ∷ []) }
        ensures err { OnErr result (self.new ≡ self.old) }
    {
        if !takes_authority(self.items.as_slice(), &item) {
            return Err(ListError::Bound);
        }
        match self.items.push(item) {
            Ok(()) => Ok(()),
            Err(_) => Err(ListError::Memory),
        }
    }

    /// How many authorities there are: at most 16, no two of one port, each with a port and an address as they may be.
    pub fn count(&self) -> u64
        ensures count { result ≡ length self.now }
        ensures bound { result ≤ 16 }
        ensures authorities { AreAuthorities self.now }
    {
        self.items.len() as u64
    }

    /// The authority at a place, from 0. None exactly where there is none.
    pub fn get(&self, place: u64) -> Option<&Authority>
        ensures { option_copied result ≡ slice_get self.now place }
    {
        if place < self.count() {
            Some(&self.items[place as usize])
        } else {
            None
        }
    }

    /// Whether an authority has this port.
    pub fn has_port(&self, port: u64) -> bool
        ensures { result ≡ list_any (λ a. nat_eq port a.port) self.now }
    {
        is_port_of(self.items.as_slice(), port)
    }

    /// A copy of the authorities. An `Err` says that there was no memory for it.
    pub fn copy(&self, alloc: Global) -> Result<Authorities, AllocError>
        ensures { IfOk result (λ copy. copy ≡ self.now) }
    {
        let mut items = Vec::new(alloc);
        for item in &self.items {
            items.push(item.copy(alloc)?)?;
        }
        Ok(Authorities { items })
    }
}

impl Head {
    /// A copy of the head. An `Err` says that there was no memory for it.
    pub fn copy(&self, alloc: Global) -> Result<Head, AllocError>
        ensures { IfOk result (λ copy. copy ≡ self.now) }
    {
        Ok(Head {
            principals: self.principals.copy(alloc)?,
            authorities: self.authorities.copy(alloc)?,
        })
    }
}
