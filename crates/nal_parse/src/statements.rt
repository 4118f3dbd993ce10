ghost use Rattle.std.specs.Prelude.{◌≢◌, ◌<◌, ◌≤◌, ◌-◌, [], length, Some, None, IfOk};
ghost use Rattle.nal_term.specs.Names.{IsName};
ghost use Rattle.nal_term.specs.Trees.{term_tree};
ghost use Rattle.nal_term.specs.Trees as tree;
ghost use Rattle.nal_parse.specs.declared.tokens.Keyword.TheVariants as word;
ghost use Rattle.nal_parse.specs.Tokens as lexeme;
ghost use Rattle.nal_parse.specs.Tokens.{lexeme_of};
ghost use Rattle.nal_parse.specs.Inner.Reading.{ReadsRest, IsReading, Arguments, ReadsMade, ReadsDelegation, Terms, ends_unary, anything, part_tree};

use crate::makers;
use crate::parts::Part;
use crate::reader::Reader;
use crate::stops::Stop;
use crate::terms::{read_arguments, read_scope, read_term};
use crate::tokens::Keyword;
use nal_term::{Args, Compare, Formula, Term};
use std::alloc::{AllocError, Global};

/// term { "," term } ")", after the predicate of an atom and its opening bracket
pub fn read_atom(alloc: Global, predicate: &[u8], reader: &mut Reader) -> Result<Part, Stop>
    requires { IsName predicate.now }
    ensures reading { IsReading part_tree anything (ReadsMade (λ ts. tree.atom predicate.now ts) Arguments) 0
        reader.old.text.now reader.new.text.now result }
    ensures shorter { IfOk result (λ _. length reader.new.text.now < length reader.old.text.now) }
{
    match read_arguments(alloc, Args::new(alloc), reader) {
        Ok(args) => match makers::atom_of(alloc, predicate, args) {
            Ok(part) => Ok(part),
            Err(AllocError) => Err(Stop::Memory),
        },
        Err(stop) => Err(stop),
    }
}

/// term, after the sign of a comparison
fn read_compared(
    alloc: Global,
    compare: Compare,
    left: Term,
    reader: &mut Reader,
) -> Result<Part, Stop>
    ensures reading { IsReading part_tree ends_unary (ReadsMade (λ u. tree.test compare (term_tree left) u) Terms) 0
        reader.old.text.now reader.new.text.now result }
    ensures shorter { IfOk result (λ _. length reader.new.text.now < length reader.old.text.now) }
{
    match read_term(alloc, reader) {
        Ok(right) => match makers::leaf(alloc, Formula::Test(compare, left, right)) {
            Ok(part) => Ok(part),
            Err(AllocError) => Err(Stop::Memory),
        },
        Err(stop) => Err(stop),
    }
}

/// term [ "on" scope ], after `speaksfor`
fn read_delegation(
    alloc: Global,
    levels: u8,
    delegate: Term,
    reader: &mut Reader,
) -> Result<Part, Stop>
    ensures reading { IsReading part_tree ends_unary (ReadsDelegation (term_tree delegate)) levels reader.old.text.now
        reader.new.text.now result }
    ensures shorter { IfOk result (λ _. length reader.new.text.now < length reader.old.text.now) }
{
    let delegator = match read_term(alloc, reader) {
        Ok(delegator) => delegator,
        Err(stop) => return Err(stop),
    };
    if !reader.token.is(Keyword::On) {
        return match makers::leaf(alloc, Formula::SpeaksFor(delegate, delegator)) {
            Ok(part) => Ok(part),
            Err(AllocError) => Err(Stop::Memory),
        };
    }
    reader.advance();
    match read_scope(alloc, levels, reader) {
        Ok(scope) => match makers::leaf(alloc, Formula::SpeaksForOn(delegate, delegator, scope)) {
            Ok(part) => Ok(part),
            Err(AllocError) => Err(Stop::Memory),
        },
        Err(stop) => Err(stop),
    }
}

/// "speaksfor" term [ "on" scope ] | ("=" | "<" | "<=") term, or nothing after a name: a statement after its term, but for `says`
// Apart, so that what is said takes little stack and time.
#[inline(never)]
pub fn read_judged(alloc: Global, levels: u8, term: Term, reader: &mut Reader) -> Result<Part, Stop>
    requires { lexeme_of reader.old.token ≢ lexeme.keyword word.Says }
    ensures reading { IsReading part_tree ends_unary (ReadsRest (term_tree term)) levels reader.old.text.now
        reader.new.text.now result }
    ensures bound { IfOk result (λ _. length reader.new.text.now ≤ length reader.old.text.now) }
{
    if reader.token.is(Keyword::SpeaksFor) {
        reader.advance();
        return read_delegation(alloc, levels, term, reader);
    }
    match makers::comparison(&reader.token) {
        Some(compare) => {
            reader.advance();
            read_compared(alloc, compare, term, reader)
        }
        None => match makers::atom(alloc, term) {
            Some(formula) => match makers::leaf(alloc, formula) {
                Ok(part) => Ok(part),
                Err(AllocError) => Err(Stop::Memory),
            },
            None => Err(reader.stop()),
        },
    }
}
