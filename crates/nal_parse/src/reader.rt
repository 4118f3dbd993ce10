ghost use Rattle.std.specs.Prelude.{◌≡◌, ◌≢◌, ◌<◌, ◌≤◌, length};
ghost use Rattle.nal_parse.specs.Tokens.{after_blanks, lexeme_of};
ghost use Rattle.nal_parse.specs.Tokens as lexeme;
ghost use Rattle.nal_parse.specs.Inner.Reading.{IsFront, IsStopAt};
ghost use Rattle.nal_parse.specs.declared.stops.Stop.TheVariants.{Refused};
ghost use Rattle.nal_parse.specs.declared.stops.Found.TheVariants.{TooDeep};

use crate::stops::Stop;
use crate::tokens::Token;

/// What is left of a text: its next token, which is cut once, and what follows that.
#[derive(Clone, Copy)]
pub struct Reader<'a> {
    pub text: &'a [u8],
    pub token: Token<'a>,
    pub rest: &'a [u8],
    ghost front: { IsFront text.now (lexeme_of token) rest.now },
}

impl<'a> Reader<'a> {
    /// The reader in front of a text.
    pub fn of(text: &'a [u8]) -> Reader<'a>
        ensures text { result.text.now ≡ text.now }
    {
        let (token, rest) = Token::next(text);
        Reader { text, token, rest }
    }

    /// Goes on behind the next token.
    // Apart, so that each reader pays for no token of its own.
    #[inline(never)]
    pub fn advance(&mut self)
        ensures text { self.new.text.now ≡ self.old.rest.now }
        ensures bound { length self.new.text.now ≤ length self.old.text.now }
        ensures shorter { lexeme_of self.old.token ≢ lexeme.end → length self.new.text.now < length self.old.text.now }
    {
        let (token, rest) = Token::next(self.rest);
        self.text = self.rest;
        self.token = token;
        self.rest = rest;
    }

    /// The stop at the next token, which no spelling allows there.
    pub fn stop(&self) -> Stop
        ensures { IsStopAt (lexeme_of self.now.token) self.now.text.now result }
    {
        Stop::at(self.text, &self.token)
    }

    /// The stop at the next token, which would open a level too many.
    pub fn too_deep(&self) -> Stop
        ensures { result ≡ Refused TooDeep (length (after_blanks self.now.text.now)) }
    {
        Stop::too_deep(self.text)
    }
}
