// A keeper of lines behind a wire.
ghost use Rattle.std.specs.Prelude.{◌≡◌, ◌≢◌, ◌<◌, ◌≤◌, ◌++◌, ◌∷◌, [], MatchOption, drop, false, length, take, true};
ghost use Rattle.std.specs.List.{All};
ghost use Rattle.line_log.specs.LogCalls.{connect_call};
ghost use Rattle.line_log.specs.LineLogs.{AreCut, AreKept, IsLine, Keeping, Keeps, Loses};

use crate::lines::{LONGEST_ANSWER, kept_line, request};
use crate::wires::LogWire;
use nx_io::Reach;
use std::alloc::Global;
use std::marker::Model;
use std::net::{Net, TcpListener, TcpStream};
use text_lines::first_line;

/// The line that ends a text.
const END: &[u8] = b"end\n";

/// A keeper of lines, behind a wire, and how many lines it has answered for.
#[derive(Drop)]
pub struct Keeper<W: LogWire + Drop> {
    pub wire: W,
    pub count: u64,
}

impl<W: LogWire + Drop> Model for Keeper<W> {
    ghost use Rattle.line_log.specs.LineLogs.{Keeping};

    ghost Value = { Keeping };

    ghost view = { λ k. record { calls = W.calls k.wire; count = k.count } };
}

impl<W: LogWire + Drop> Keeper<W> {
    /// Connects to it at an address.
    pub fn connect<R: Net<Listener = TcpListener, Stream = TcpStream>>(
        &mut self,
        rt: &R,
        address: &[u8],
    ) -> Reach
        ensures { self.new ≡ record {
          calls = self.old.calls ++ connect_call address.now result ∷ [];
          count = self.old.count;
        } }
    {
        self.wire.connect(rt, address)
    }

    /// Hands on the lines of a piece, as changes or as lines of the opening text, until one is lost: so many bytes of it are kept.
    pub fn keep_lines(&mut self, alloc: Global, is_change: bool, piece: &[u8]) -> usize
        ensures within { result ≤ length piece.now }
        ensures whole { result ≡ length piece.now → AreKept is_change self.old piece.now self.new }
        ensures cut { result < length piece.now → (between : Keeping)
            × AreKept is_change self.old (take result piece.now) between
            × AreCut is_change between (drop result piece.now) self.new }
    {
        let mut kept = 0;
        while kept < piece.len() {
            match self.keep_first(alloc, is_change, &piece[kept..]) {
                Some(length) => kept += length,
                None => return kept,
            }
        }
        kept
    }

    /// Hands on the first line of a piece: so many bytes it has. None where it is lost, or the piece has no whole line.
    fn keep_first(&mut self, alloc: Global, is_change: bool, piece: &[u8]) -> Option<usize>
        requires { 0 < length piece.now }
        ensures { MatchOption result (AreCut is_change self.old piece.now self.new)
            (λ n. (1 ≤ n) × (n ≤ length piece.now) × IsLine (take n piece.now)
            × Keeps is_change (take n piece.now) self.old self.new) }
    {
        let length = first_line_length(piece)?;
        if self.keep(alloc, is_change, &piece[..length]) {
            Some(length)
        } else {
            None
        }
    }

    /// Hands on a line: whether it is kept. The one that ends a text goes nowhere.
    fn keep(&mut self, alloc: Global, is_change: bool, line: &[u8]) -> bool
        ensures kept { result ≡ true → Keeps is_change line.now self.old self.new }
        ensures lost { result ≡ false → Loses is_change line.now self.old self.new }
    {
        if line == END {
            return true;
        }
        let Some(number) = self.count.checked_add(1) else {
            return false;
        };
        let Ok(request) = request(alloc, is_change, number, line) else {
            return false;
        };
        let mut answer = [0; LONGEST_ANSWER];
        let length = self.wire.exchange(request.as_slice(), &mut answer);
        if &answer[..length] == kept_line(number).as_slice() {
            self.count = number;
            true
        } else {
            false
        }
    }
}

/// How many bytes the first line of a piece has, with its line feed. None where it has none.
fn first_line_length(piece: &[u8]) -> Option<usize>
    ensures { MatchOption result (All (λ byte. byte ≢ 10) piece.now)
        (λ n. (1 ≤ n) × (n ≤ length piece.now) × IsLine (take n piece.now)) }
{
    let (body, _) = first_line(piece);
    if body.len() < piece.len() {
        Some(body.len() + 1)
    } else {
        None
    }
}
