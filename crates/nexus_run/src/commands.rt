//! The words by which commands are called.
ghost use Rattle.std.specs.Prelude.{◌≡◌, ◌≢◌, ◌↔◌, ◌<◌, ◌≤◌, ◌^◌, ◌∷◌, ◌++◌, [], ℕ, Bool, List, IsTrue, MatchOption, Option, false, map, true};
ghost use Rattle.nal_term.specs.Names.{IsName};
ghost use Rattle.nexus_client.specs.declared.inputs.TalkInput.{TalkInput};
ghost use Rattle.nexus_run.specs.Commands.{IsCalledBy, IsDrill, IsLoad, IsLoggedCall, IsPlain, IsTalkCall, IsUnlogged, IsWithin, command_words, core_words, drill_words, export_words, log_words, logged_words, most_steps, patience_words, records_words, serve_words, talk_word, talk_words};
ghost use Rattle.service_commands.specs.Services.{IsAddress, IsPatience, IsService, patience_in};

use nal_term::{is_name, is_secret};
use nexus_client::TalkInput;
use service_commands::{LoggedService, Service, TalkCall};
use text_lines::read_number;

/// How many steps a load of `core` has at most.
const MOST_STEPS: u64 = 1_000_000;

/// How many workers a service has at most.
const MOST_WORKERS: u64 = 1024;

/// For how many seconds a service waits at most for a peer that is admitted.
const MOST_PATIENCE: u64 = 86_400;

/// How many workers a load on threads has at most.
const MOST_DRILL_WORKERS: u64 = 64;

/// How many drawn requests a worker of a load has at most.
const MOST_CALLS: u64 = 4000;

/// How many sessions a worker serves at most.
const MOST_SESSIONS: u64 = 65_536;

/// What the program can be asked to do, beside a service and a talk.
#[derive(Clone, Copy, Debug, PartialEq, Eq)]
pub enum Command<'a> {
    /// Checks one proof.
    Check,
    /// Answers the requests of a script.
    Script,
    /// Says whether the untrusted can reach a goal.
    Trust,
    /// Finds a chain of delegations.
    Prove,
    /// Holds recorded verdicts against a policy.
    Audit,
    /// Says why a call has its verdict.
    Explain,
    /// Makes a policy text of one that was cut.
    Recover,
    /// Makes a policy of the entries that still matter.
    Compact,
    /// Prints the bundle of the labels that a principal holds.
    Export {
        name: &'a [u8],
    },
    /// Takes so many steps of a load that is drawn from a number.
    Core {
        number: u64,
        steps: u64,
    },
    /// Runs a load that is drawn from a number on so many threads, each with so many drawn requests.
    Drill {
        number: u64,
        workers: u64,
        calls: u64,
    },
}

/// What the program is called for, where that needs no log.
#[derive(Clone, Copy)]
pub enum Call<'a> {
    /// Serves the sessions of workers, the text going to the output.
    Serve(Service<'a>),
    /// Talks to a service.
    Talk(TalkCall<'a>),
    /// Runs any other command.
    Plain(Command<'a>),
}

/// What the program is called for by these words, where that needs no log. None exactly where they are those of no such command.
/// `docs/FORMATS.md`, "Commands", states them.
pub fn call_of<'a>(words: &'a [&'a str]) -> Option<Call<'a>>
    ensures { MatchOption result
        (¬ IsUnlogged (map (λ w. w.now) words.now))
        (λ call. IsCalledBy call (map (λ w. w.now) words.now)) }
{
    if let Some(service) = service_of(words) {
        return Some(Call::Serve(service));
    }
    if let Some(talk) = talk_of(words) {
        return Some(Call::Talk(talk));
    }
    Some(Call::Plain(command_of(words)?))
}

/// The service that is called by these words. None exactly where they are those of none.
fn service_of<'a>(words: &'a [&'a str]) -> Option<Service<'a>>
    ensures { MatchOption result ((address : List ℕ) (workers sessions : ℕ) (patience : Option ℕ) (records : Bool)
        → IsService address workers sessions patience → map (λ w. w.now) words.now ≢ serve_words address workers
        sessions patience records)
        (λ s. IsService s.address.now s.workers s.sessions s.patience
        × (map (λ w. w.now) words.now ≡ serve_words s.address.now s.workers s.sessions s.patience s.records)) }
{
    let (first, rest) = words.split_first()?;
    if !is_same(first, "serve") {
        return None;
    }
    let (address, workers, sessions, rest) = first_three(rest)?;
    let workers = read_number(workers.as_bytes())?;
    let sessions = read_number(sessions.as_bytes())?;
    let (patience, records) = closing_of(rest)?;
    let address = address.as_bytes();
    if is_service(address, workers, sessions) {
        Some(Service {
            address,
            workers,
            sessions,
            patience,
            records,
        })
    } else {
        None
    }
}

/// The service with a log that is called by these words. None exactly where they are those of none.
pub(crate) fn logged_of<'a>(words: &'a [&'a str]) -> Option<LoggedService<'a>>
    ensures { MatchOption result (¬ IsLoggedCall (map (λ w. w.now) words.now))
        (λ l. IsService l.service.address.now l.service.workers l.service.sessions l.service.patience
        × IsAddress l.log.now
        × (map (λ w. w.now) words.now ≡ logged_words l.service.address.now l.service.workers l.service.sessions
        l.service.patience l.service.records l.log.now)) }
{
    let (front, log) = before_log(words)?;
    let service = service_of(front)?;
    Some(LoggedService { service, log })
}

/// The words in front of the last two, where these say at which address a log is reached, and this address. None exactly where they don't.
fn before_log<'a>(words: &'a [&'a str]) -> Option<(&'a [&'a str], &'a [u8])>
    ensures { MatchOption result ((front : List (List ℕ)) (log : List ℕ) → IsAddress log
        → map (λ w. w.now) words.now ≢ front ++ log_words log)
        (λ r. IsAddress r.1.now × (map (λ w. w.now) words.now ≡ map (λ w. w.now) r.0.now ++ log_words r.1.now)) }
{
    let (last, rest) = words.split_last()?;
    let (word, front) = rest.split_last()?;
    let log = last.as_bytes();
    if is_same(word, "log") && is_address(log) {
        Some((front, log))
    } else {
        None
    }
}

/// The patience that the last words of a service say, if they say one, and whether its calls are recorded. None exactly where they are
/// the last words of none.
fn closing_of(words: &[&str]) -> Option<(Option<u64>, bool)>
    ensures { MatchOption result ((patience : Option ℕ) (records : Bool) → IsPatience (patience_in patience)
        → map (λ w. w.now) words.now ≢ patience_words patience ++ records_words records)
        (λ r. IsPatience (patience_in r.0)
        × (map (λ w. w.now) words.now ≡ patience_words r.0 ++ records_words r.1)) }
{
    let (front, records) = without_records(words);
    let patience = patience_of(front)?;
    Some((patience, records))
}

/// The words in front of the word `records`, where that is the last one, and whether it is.
fn without_records<'a>(words: &'a [&'a str]) -> (&'a [&'a str], bool)
    ensures front { map (λ w. w.now) words.now ≡ map (λ w. w.now) result.0.now ++ records_words result.1 }
    ensures none { result.1 ≡ false → (front : List (List ℕ))
        → map (λ w. w.now) words.now ≢ front ++ records_words true }
{
    match words.split_last() {
        Some((last, front)) if is_same(last, "records") => (front, true),
        _ => (words, false),
    }
}

/// The patience that these words say, if they say one. None exactly where they are not those of a patience.
fn patience_of(words: &[&str]) -> Option<Option<u64>>
    ensures { MatchOption result ((patience : Option ℕ) → IsPatience (patience_in patience)
        → map (λ w. w.now) words.now ≢ patience_words patience)
        (λ patience. IsPatience (patience_in patience) × (map (λ w. w.now) words.now ≡ patience_words patience)) }
{
    match words.split_first() {
        None => Some(None),
        Some((word, rest)) => {
            let seconds = read_number(word.as_bytes())?;
            if rest.is_empty() && is_patience(seconds) {
                Some(Some(seconds))
            } else {
                None
            }
        }
    }
}

/// Whether a service may wait for so many seconds.
fn is_patience(seconds: u64) -> bool
    ensures value { IsTrue result ↔ IsPatience seconds }
    ensures small { seconds < 2 ^ 64 }
{
    (1..=MOST_PATIENCE).contains(&seconds)
}

/// The talk that is called by these words. None exactly where they are those of none.
fn talk_of<'a>(words: &'a [&'a str]) -> Option<TalkCall<'a>>
    ensures { MatchOption result (¬ IsTalkCall (map (λ w. w.now) words.now))
        (λ call. IsAddress call.address.now × (map (λ w. w.now) words.now ≡ talk_words call.input call.address.now)) }
{
    let (word, address) = two(words)?;
    let input = talk_input(word)?;
    let address = address.as_bytes();
    if is_address(address) {
        Some(TalkCall { input, address })
    } else {
        None
    }
}

/// What the input of a talk is that has this word. None exactly where it is the word of none.
fn talk_input(word: &str) -> Option<TalkInput>
    ensures { MatchOption result ((input : TalkInput) → word.now ≢ talk_word input)
        (λ input. word.now ≡ talk_word input) }
{
    if is_same(word, "client") {
        Some(TalkInput::RequestLines)
    } else if is_same(word, "import") {
        Some(TalkInput::PeerBundle)
    } else {
        None
    }
}

/// The words, where they are two.
fn two<'a>(words: &'a [&'a str]) -> Option<(&'a str, &'a str)>
    ensures { MatchOption result ((a b : List ℕ) → map (λ w. w.now) words.now ≢ a ∷ b ∷ []) (λ r. map (λ w. w.now)
        words.now ≡ r.0.now ∷ r.1.now ∷ []) }
{
    let (first, rest) = words.split_first()?;
    let (second, rest) = rest.split_first()?;
    if rest.is_empty() {
        Some((first, second))
    } else {
        None
    }
}

/// Whether a service may listen there, with so many workers and so many sessions for each.
fn is_service(address: &[u8], workers: u64, sessions: u64) -> bool
    ensures value { IsTrue result ↔ (IsAddress address.now × (1 ≤ workers) × (workers ≤ 1024) × (1 ≤ sessions)
        × (sessions ≤ 65536)) }
    ensures small { (workers < 2 ^ 64) × (sessions < 2 ^ 64) }
{
    is_address(address)
        && (1..=MOST_WORKERS).contains(&workers)
        && (1..=MOST_SESSIONS).contains(&sessions)
}

/// Whether the word may be an address.
fn is_address(word: &[u8]) -> bool
    ensures { IsTrue result ↔ IsAddress word.now }
{
    is_secret(word) && word != b"help".as_slice() && word.first() != Some(&b'-')
}

/// The command that is called by these words, where they are those of neither a service nor a talk. None exactly where they are those of
/// none.
fn command_of<'a>(words: &'a [&'a str]) -> Option<Command<'a>>
    ensures { MatchOption result
        (¬ IsPlain (map (λ w. w.now) words.now))
        (λ command. IsWithin command × (map (λ w. w.now) words.now ≡ command_words command)) }
{
    if is_word(words, "check") {
        Some(Command::Check)
    } else if is_word(words, "script") {
        Some(Command::Script)
    } else if is_word(words, "trust") {
        Some(Command::Trust)
    } else if is_word(words, "prove") {
        Some(Command::Prove)
    } else if is_word(words, "audit") {
        Some(Command::Audit)
    } else if is_word(words, "explain") {
        Some(Command::Explain)
    } else if is_word(words, "recover") {
        Some(Command::Recover)
    } else if is_word(words, "compact") {
        Some(Command::Compact)
    } else {
        further_of(words)
    }
}

/// The command that is called by these words, if they are those of `export`, `core` or `drill`.
fn further_of<'a>(words: &'a [&'a str]) -> Option<Command<'a>>
    ensures { MatchOption result
        (((name : List ℕ) → IsName name → map (λ w. w.now) words.now ≢ export_words name)
        × ((number steps : ℕ) → IsLoad number steps → map (λ w. w.now) words.now ≢ core_words number steps)
        × ((number workers calls : ℕ) → IsDrill number workers calls
        → map (λ w. w.now) words.now ≢ drill_words number workers calls))
        (λ command. IsWithin command × (map (λ w. w.now) words.now ≡ command_words command)) }
{
    match export_of(words) {
        Some(name) => Some(Command::Export { name }),
        None => load_of(words),
    }
}

/// The name of the principal whose labels are exported, by these words. None exactly where they are not those of an export.
fn export_of<'a>(words: &'a [&'a str]) -> Option<&'a [u8]>
    ensures { MatchOption result ((name : List ℕ) → IsName name → map (λ w. w.now) words.now ≢ export_words name)
        (λ name. IsName name.now × (map (λ w. w.now) words.now ≡ export_words name.now)) }
{
    let (word, name) = two(words)?;
    let name = name.as_bytes();
    if is_same(word, "export") && is_name(name) {
        Some(name)
    } else {
        None
    }
}

/// The load that is called by these words, if they are those of `core` or `drill`.
fn load_of<'a>(words: &[&str]) -> Option<Command<'a>>
    ensures { MatchOption result
        (((number steps : ℕ) → IsLoad number steps → map (λ w. w.now) words.now ≢ core_words number steps)
        × ((number workers calls : ℕ) → IsDrill number workers calls
        → map (λ w. w.now) words.now ≢ drill_words number workers calls))
        (λ command. IsWithin command × (map (λ w. w.now) words.now ≡ command_words command)) }
{
    match core_of(words) {
        Some(command) => Some(command),
        None => drill_of(words),
    }
}

/// The load that is called by these words, if they are those of `drill`.
fn drill_of<'a>(words: &[&str]) -> Option<Command<'a>>
    ensures { MatchOption result ((number workers calls : ℕ) → IsDrill number workers calls
        → map (λ w. w.now) words.now ≢ drill_words number workers calls)
        (λ command. IsWithin command × (map (λ w. w.now) words.now ≡ command_words command)) }
{
    let (word, rest) = words.split_first()?;
    if !is_same(word, "drill") {
        return None;
    }
    let (number_text, workers_text, calls_text) = three(rest)?;
    let number = read_number(number_text.as_bytes())?;
    let workers = read_number(workers_text.as_bytes())?;
    let calls = read_number(calls_text.as_bytes())?;
    if !is_drill(workers, calls) {
        return None;
    }
    Some(Command::Drill {
        number,
        workers,
        calls,
    })
}

/// Whether a load in threads may have so many workers, and so many drawn requests for each.
fn is_drill(workers: u64, calls: u64) -> bool
    ensures value { IsTrue result ↔ ((1 ≤ workers) × (workers ≤ 64) × (1 ≤ calls) × (calls ≤ 4000)) }
    ensures small { (workers < 2 ^ 64) × (calls < 2 ^ 64) }
{
    (1..=MOST_DRILL_WORKERS).contains(&workers) && (1..=MOST_CALLS).contains(&calls)
}

/// The load that is called by these words, if they are those of `core`.
fn core_of<'a>(words: &[&str]) -> Option<Command<'a>>
    ensures { MatchOption result ((number steps : ℕ) → IsLoad number steps
        → map (λ w. w.now) words.now ≢ core_words number steps) (λ command. IsWithin command
        × (map (λ w. w.now) words.now ≡ command_words command)) }
{
    let (word, number, steps) = three(words)?;
    if !is_same(word, "core") {
        return None;
    }
    let number = read_number(number.as_bytes())?;
    let steps = read_number(steps.as_bytes())?;
    if !are_few(steps) {
        return None;
    }
    Some(Command::Core { number, steps })
}

/// Whether a load may have so many steps.
fn are_few(steps: u64) -> bool
    ensures value { IsTrue result ↔ (steps ≤ most_steps) }
    ensures small { steps < 2 ^ 64 }
{
    steps <= MOST_STEPS
}

/// The words, where they are three.
fn three<'a>(words: &'a [&'a str]) -> Option<(&'a str, &'a str, &'a str)>
    ensures { MatchOption result ((a b c : List ℕ) → map (λ w. w.now) words.now ≢ a ∷ b ∷ c ∷ []) (λ r. map (λ w.
        w.now) words.now ≡ r.0.now ∷ r.1.now ∷ r.2.now ∷ []) }
{
    let (first, rest) = words.split_first()?;
    let (second, rest) = rest.split_first()?;
    let (third, rest) = rest.split_first()?;
    if rest.is_empty() {
        Some((first, second, third))
    } else {
        None
    }
}

/// The first three words, and those behind them.
fn first_three<'a>(words: &'a [&'a str]) -> Option<(&'a str, &'a str, &'a str, &'a [&'a str])>
    ensures { MatchOption result ((a b c : List ℕ) (rest : List (List ℕ))
        → map (λ w. w.now) words.now ≢ a ∷ b ∷ c ∷ rest)
        (λ r. map (λ w. w.now) words.now ≡ r.0.now ∷ r.1.now ∷ r.2.now ∷ map (λ w. w.now) r.3.now) }
{
    let (first, rest) = words.split_first()?;
    let (second, rest) = rest.split_first()?;
    let (third, rest) = rest.split_first()?;
    Some((first, second, third, rest))
}

/// Whether this is the one word.
fn is_word(words: &[&str], due: &str) -> bool
    ensures { IsTrue result ↔ (map (λ w. w.now) words.now ≡ due.now ∷ []) }
{
    match words.split_first() {
        Some((word, rest)) => {
            if rest.is_empty() {
                is_same(word, due)
            } else {
                false
            }
        }
        None => false,
    }
}

/// Whether the word is this one.
fn is_same(word: &str, due: &str) -> bool
    ensures { IsTrue result ↔ (word.now ≡ due.now) }
{
    word.as_bytes() == due.as_bytes()
}
