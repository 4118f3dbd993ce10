ghost use Rattle.std.specs.Prelude.{◌≡◌, length};
ghost use Rattle.nal_parse.specs.Tokens.{after_blanks, lexeme_of};
ghost use Rattle.nal_parse.specs.Inner.Reading.{IsStopAt, error_of};

use crate::parse::ParseError;
use crate::tokens::{Token, blank_length};

/// What was found where no spelling goes on.
#[derive(Clone, Copy, Debug, PartialEq, Eq)]
pub enum Found {
    Unexpected,
    TooDeep,
    BadNumber,
    BadName,
    BadText,
}

/// Why a reader stopped.
#[derive(Clone, Copy, Debug, PartialEq, Eq)]
pub enum Stop {
    /// At the place with so many bytes left no spelling goes on.
    Refused { found: Found, left: usize },
    /// There was no memory.
    Memory,
}

impl Stop {
    /// The stop at the first token of the text, which no spelling allows there.
    pub fn at(text: &[u8], token: &Token) -> Stop
        ensures { IsStopAt (lexeme_of token.now) text.now result }
    {
        let found = match token {
            Token::BadName => Found::BadName,
            Token::BadNumber => Found::BadNumber,
            Token::BadText => Found::BadText,
            _ => Found::Unexpected,
        };
        Stop::Refused {
            found,
            left: text.len() - blank_length(text),
        }
    }

    /// The error that the stop is in the whole text, with its place counted from the front.
    pub fn error_in(self, text: &[u8]) -> ParseError
        ensures { result ≡ error_of self (length text.now) }
    {
        let Stop::Refused { found, left } = self else {
            return ParseError::Memory;
        };
        let place = text.len().saturating_sub(left) as u64;
        match found {
            Found::Unexpected => ParseError::Unexpected { place },
            Found::TooDeep => ParseError::TooDeep { place },
            Found::BadNumber => ParseError::BadNumber { place },
            Found::BadName => ParseError::BadName { place },
            Found::BadText => ParseError::BadText { place },
        }
    }

    /// The stop at the first token of the text, which would open a level too many.
    pub fn too_deep(text: &[u8]) -> Stop
        ensures { result ≡ Stop.Refused Found.TooDeep (length (after_blanks text.now)) }
    {
        Stop::Refused {
            found: Found::TooDeep,
            left: text.len() - blank_length(text),
        }
    }
}
