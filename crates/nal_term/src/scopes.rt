ghost use Rattle.std.specs.Prelude.{◌≡◌, ◌↔◌, ◌++◌, ◌∷◌, [], ◌≤◌, length, IfOk, IsTrue, OnErr, OnOk, slice_get, Contains};
ghost use Rattle.std.specs.Option.{option_copied};

use crate::names::Name;
use crate::terms::ArgsError;
use std::alloc::{AllocError, Global};
use std::marker::Model;

/// The scope of a restricted delegation: 1 to 8 names, which contracts see as a list.
#[derive(Drop)]
pub struct Scope {
    names: Vec<Name>,
}

impl Model for Scope {
    ghost use Rattle.std.specs.Prelude.{List, ℕ, ◌≤◌, ◌<◌, length};

    ghost Value = { List (List ℕ) };

    ghost view = { λ s. s.names.items };

    ghost invariant = { λ s. (0 < length s.names.items) × (length s.names.items ≤ 8) };
}

impl Scope {
    /// The scope of this one name. An `Err` says that there was no memory for it.
    pub fn of(alloc: Global, first: Name) -> Result<Scope, AllocError>
        ensures { IfOk result (λ scope. scope ≡ first ∷ []) }
    {
        let mut names = Vec::new(alloc);
        names.push(first)?;
        Ok(Scope { names })
    }

    /// A copy of the scope. An `Err` says that there was no memory for it.
    pub fn copy(&self, alloc: Global) -> Result<Scope, AllocError>
        ensures { IfOk result (λ copy. copy ≡ self.now) }
    {
        let mut names = Vec::new(alloc);
        for name in &self.names {
            names.push(name.copy(alloc)?)?;
        }
        Ok(Scope { names })
    }

    /// Adds a name at the end. `Full` exactly where there are 8; an `Err` changes nothing.
    pub fn push(&mut self, name: Name) -> Result<(), ArgsError>
        ensures ok { OnOk result (self.new ≡ self.old ++ name ∷ []) }
        ensures full { (result ≡ Err ArgsError.Full) ↔ (length self.old ≡ 8) }
        ensures err { OnErr result (self.new ≡ self.old) }
        ensures bound { length self.new ≤ 8 }
    {
        if self.names.len() == 8 {
            return Err(ArgsError::Full);
        }
        match self.names.push(name) {
            Ok(()) => Ok(()),
            Err(_) => Err(ArgsError::Memory),
        }
    }

    /// Whether the name is one of the scope's.
    pub fn holds(&self, name: &Name) -> bool
        ensures { IsTrue result ↔ Contains self.now name.now }
    {
        for held in &self.names {
            if held.as_slice() == name.as_slice() {
                return true;
            }
        }
        false
    }

    /// How many names there are: 1 to 8.
    pub fn count(&self) -> u64
        ensures count { result ≡ length self.now }
        ensures least { 1 ≤ result }
        ensures most { result ≤ 8 }
    {
        self.names.len() as u64
    }

    /// The name at a place, counted from 0. None exactly where there is none.
    pub fn get(&self, place: u64) -> Option<&Name>
        ensures { option_copied result ≡ slice_get self.now place }
    {
        if place < self.count() {
            Some(&self.names[place as usize])
        } else {
            None
        }
    }

    /// The names as a slice.
    pub fn as_slice(&self) -> &[Name]
        ensures { result.now ≡ self.now }
    {
        self.names.as_slice()
    }
}

/// Whether two scopes are the same list of names.
pub fn equal_scopes(a: &Scope, b: &Scope) -> bool
    ensures { IsTrue result ↔ (a.now ≡ b.now) }
{
    equal_names(a.as_slice(), b.as_slice())
}

fn equal_names(a: &[Name], b: &[Name]) -> bool
    ensures { IsTrue result ↔ (a.now ≡ b.now) }
{
    match (a.split_first(), b.split_first()) {
        (None, None) => true,
        (Some((x, xs)), Some((y, ys))) => x.as_slice() == y.as_slice() && equal_names(xs, ys),
        _ => false,
    }
}
