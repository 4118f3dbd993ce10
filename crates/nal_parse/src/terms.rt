ghost use Rattle.std.specs.Prelude.{◌≡◌, ◌<◌, ◌≤◌, ◌-◌, ◌+◌, ◌++◌, ◌∷◌, [], length, Some, None, IfOk, option_map};
ghost use Rattle.nal_term.specs.Names.{IsName};
ghost use Rattle.nal_term.specs.Trees.{subprincipal, term_tree, term_trees};
ghost use Rattle.nal_parse.specs.Tokens.{lexeme_of};
ghost use Rattle.nal_parse.specs.Grammar.{ReadsTerm, ReadsName, ReadsScope};
ghost use Rattle.nal_parse.specs.Inner.Reading.{IsReading, Parts, ReadsMore, Terms, IsWellFormed, anything, ends_term, first_term, names_so_far};

use crate::reader::Reader;
use crate::stops::Stop;
use crate::tokens::Token;
use nal_term::{Args, Name, Scope, Term, Text};
use std::alloc::{AllocError, Global};

/// term = (number | name | text | variable) { "." name }
pub fn read_term(alloc: Global, reader: &mut Reader) -> Result<Term, Stop>
    ensures reading { IsReading term_tree ends_term Terms 0 reader.old.text.now reader.new.text.now result }
    ensures shorter { IfOk result (λ _. length reader.new.text.now < length reader.old.text.now) }
{
    match first_term(alloc, &reader.token) {
        Ok(Some(first)) => {
            reader.advance();
            let Token::Dot = reader.token else {
                return Ok(first);
            };
            read_parts(alloc, first, reader)
        }
        Ok(None) => Err(reader.stop()),
        Err(AllocError) => Err(Stop::Memory),
    }
}

/// The term that a token is by itself, if any.
pub fn first_term(alloc: Global, token: &Token) -> Result<Option<Term>, AllocError>
    requires { IsWellFormed (lexeme_of token.now) }
    ensures { IfOk result (λ t. option_map term_tree t ≡ first_term (lexeme_of token.now)) }
{
    match token {
        Token::Number(number) => Ok(Some(Term::Number(*number))),
        Token::Name(name) => Ok(Some(Term::Name(Name::copy_of(alloc, name)?))),
        Token::Variable(name) => Ok(Some(Term::Var(Name::copy_of(alloc, name)?))),
        Token::Quoted(text) => Ok(Some(Term::Text(Text::copy_of(alloc, text)?))),
        _ => Ok(None),
    }
}

/// { "." name } after a term: the subprincipals of the term so far.
pub fn read_parts(alloc: Global, first: Term, reader: &mut Reader) -> Result<Term, Stop>
    ensures reading { IsReading term_tree ends_term (Parts (term_tree first)) 0 reader.old.text.now reader.new.text.now
        result }
    ensures bound { IfOk result (λ _. length reader.new.text.now ≤ length reader.old.text.now) }
{
    let mut term = first;
    while let Token::Dot = reader.token {
        reader.advance();
        let Token::Name(name) = reader.token else {
            return Err(reader.stop());
        };
        term = match part_of(alloc, term, name) {
            Ok(part) => part,
            Err(AllocError) => return Err(Stop::Memory),
        };
        reader.advance();
    }
    Ok(term)
}

fn part_of(alloc: Global, term: Term, name: &[u8]) -> Result<Term, AllocError>
    requires { IsName name.now }
    ensures { IfOk result (λ part. term_tree part ≡ subprincipal (term_tree term) name.now) }
{
    let name = Name::copy_of(alloc, name)?;
    let term = Box::new(alloc, term)?;
    Ok(Term::Sub(term, name))
}

/// term { "," term } ")": the arguments of an atom after its opening bracket, `args` being those so far.
pub fn read_arguments(alloc: Global, args: Args, reader: &mut Reader) -> Result<Args, Stop>
    requires { length args < 8 }
    ensures reading { IsReading term_trees anything (ReadsMore ReadsTerm (term_trees args)) 0 reader.old.text.now
        reader.new.text.now result }
    ensures shorter { IfOk result (λ _. length reader.new.text.now < length reader.old.text.now) }
{
    let term = match read_term(alloc, reader) {
        Ok(term) => term,
        Err(stop) => return Err(stop),
    };
    let args = match with_argument(args, term) {
        Ok(args) => args,
        Err(AllocError) => return Err(Stop::Memory),
    };
    match reader.token {
        Token::Close => {
            reader.advance();
            Ok(args)
        }
        Token::Comma if args.count() < 8 => {
            reader.advance();
            read_arguments(alloc, args, reader)
        }
        _ => Err(reader.stop()),
    }
}

fn with_argument(mut args: Args, term: Term) -> Result<Args, AllocError>
    requires { length args < 8 }
    ensures { IfOk result (λ longer. longer ≡ args ++ term ∷ []) }
{
    match args.push(term) {
        Ok(()) => Ok(args),
        Err(_) => Err(AllocError),
    }
}

/// name { "," name } ")": the names of a scope after its opening bracket, `scope` being those so far.
pub fn read_names(alloc: Global, scope: Option<Scope>, reader: &mut Reader) -> Result<Scope, Stop>
    requires { length (names_so_far scope) < 8 }
    ensures reading { IsReading (λ s. s) anything (ReadsMore ReadsName (names_so_far scope)) 0 reader.old.text.now
        reader.new.text.now result }
    ensures shorter { IfOk result (λ _. length reader.new.text.now < length reader.old.text.now) }
{
    let Token::Name(name) = reader.token else {
        return Err(reader.stop());
    };
    let scope = match with_name(alloc, scope, name) {
        Ok(scope) => scope,
        Err(AllocError) => return Err(Stop::Memory),
    };
    reader.advance();
    match reader.token {
        Token::Close => {
            reader.advance();
            Ok(scope)
        }
        Token::Comma if scope.count() < 8 => {
            reader.advance();
            read_names(alloc, Some(scope), reader)
        }
        _ => Err(reader.stop()),
    }
}

/// The scope with one name more.
pub fn with_name(alloc: Global, scope: Option<Scope>, name: &[u8]) -> Result<Scope, AllocError>
    requires room { length (names_so_far scope) < 8 }
    requires name { IsName name.now }
    ensures { IfOk result (λ longer. longer ≡ names_so_far scope ++ name.now ∷ []) }
{
    let name = Name::copy_of(alloc, name)?;
    match scope {
        None => Scope::of(alloc, name),
        Some(mut scope) => match scope.push(name) {
            Ok(()) => Ok(scope),
            Err(_) => Err(AllocError),
        },
    }
}

/// scope = name | "(" name { "," name } ")"
pub fn read_scope(alloc: Global, levels: u8, reader: &mut Reader) -> Result<Scope, Stop>
    ensures reading { IsReading (λ s. s) anything ReadsScope levels reader.old.text.now reader.new.text.now result }
    ensures shorter { IfOk result (λ _. length reader.new.text.now < length reader.old.text.now) }
{
    match reader.token {
        Token::Name(name) => match with_name(alloc, None, name) {
            Ok(scope) => {
                reader.advance();
                Ok(scope)
            }
            Err(AllocError) => Err(Stop::Memory),
        },
        Token::Open => {
            if levels == 0 {
                return Err(reader.too_deep());
            }
            reader.advance();
            read_names(alloc, None, reader)
        }
        _ => Err(reader.stop()),
    }
}
