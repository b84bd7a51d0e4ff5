//! The command that the words of the command line are.
ghost use Rattle.std.specs.Prelude.{◌≡◌, ◌≤◌, ◌<◌, List, [], ◌∷◌, Option, Some, length, map, option_map, IfSome, string_bytes};
ghost use Rattle.commands.specs.Command.{Request, AsksFor, request_of};

use crate::audit_words::{AuditWords, audit_words};
use crate::gen_words::{GenWords, gen_words};
use crate::qualify_words::qualify_words;
use crate::serve_words::{ServeWords, serve_words};
use td_live::Asked;

/// What the program is asked to do.
#[derive(Clone, Copy, Debug)]
pub enum Command<'a> {
    /// Plays the scenario of a file and reports it.
    Lab { file: &'a str },
    /// Serves at two addresses.
    Serve(ServeWords),
    /// Shows the datagram that a word spells.
    Show { word: &'a str },
    /// Plays a generated scenario and writes its totals.
    Gen(GenWords),
    /// Plays the scenario of a file and writes the capture of its wire.
    Wire { file: &'a str },
    /// Audits the capture of a file.
    Audit { asked: AuditWords, file: &'a str },
    /// Explains the capture of a file.
    Explain { asked: AuditWords, file: &'a str },
    /// Lets a client qualify at a link.
    Qualify(Asked),
    /// Plays the scenario of a file with NATs behind others, and reports it.
    Nested { file: &'a str, chain: &'a str },
    /// Plays the scenario of a file with NATs behind others, and says who reaches whom.
    Reach { file: &'a str, chain: &'a str },
    /// Plays the scenario of a file with NATs behind others, and says where each packet of a host went.
    Follow { file: &'a str, chain: &'a str },
    /// Plays the scenario of a file with NATs behind others, and says after each record what it changed of what nodes keep.
    State { file: &'a str, chain: &'a str },
}

/// The command of two words.
fn with_word<'a>(command: &str, word: &'a str) -> Option<Command<'a>>
    ensures found { IfSome result (λ c. AsksFor (command.now ∷ word.now ∷ []) (request_of c)) }
    ensures only { (asked : Request) → AsksFor (command.now ∷ word.now ∷ []) asked → option_map request_of result ≡ Some asked }
{
    if command == "lab" {
        return Some(Command::Lab { file: word });
    }
    if command == "show" {
        return Some(Command::Show { word });
    }
    if command == "wire" {
        return Some(Command::Wire { file: word });
    }
    None
}

/// The command of three words.
fn with_two<'a>(command: &str, first: &'a str, second: &'a str) -> Option<Command<'a>>
    ensures found { IfSome result (λ c. AsksFor (command.now ∷ first.now ∷ second.now ∷ []) (request_of c)) }
    ensures only { (asked : Request) → AsksFor (command.now ∷ first.now ∷ second.now ∷ []) asked → option_map request_of result ≡ Some asked }
{
    if command == "gen" {
        let asked = gen_words(first, second)?;
        return Some(Command::Gen(asked));
    }
    if command == "nested" {
        return Some(Command::Nested {
            file: first,
            chain: second,
        });
    }
    if command == "reach" {
        return Some(Command::Reach {
            file: first,
            chain: second,
        });
    }
    if command == "follow" {
        return Some(Command::Follow {
            file: first,
            chain: second,
        });
    }
    None
}

/// The command of four words.
fn with_three<'a>(
    command: &str,
    first: &'a str,
    second: &'a str,
    third: &'a str,
) -> Option<Command<'a>>
    ensures found { IfSome result (λ c. AsksFor (command.now ∷ first.now ∷ second.now ∷ third.now ∷ []) (request_of c)) }
    ensures only { (asked : Request) → AsksFor (command.now ∷ first.now ∷ second.now ∷ third.now ∷ []) asked → option_map request_of result ≡ Some asked }
{
    if command == "audit" {
        let asked = audit_words(first, second)?;
        return Some(Command::Audit { asked, file: third });
    }
    if command == "explain" {
        let asked = audit_words(first, second)?;
        return Some(Command::Explain { asked, file: third });
    }
    if command != "state" {
        return None;
    }
    if third != "each" {
        return None;
    }
    Some(Command::State {
        file: first,
        chain: second,
    })
}

/// The command of five words.
fn with_addresses<'a>(
    command: &str,
    primary: &str,
    secondary: &str,
    count: &str,
    idles: &str,
) -> Option<Command<'a>>
    ensures found { IfSome result (λ c. AsksFor (command.now ∷ primary.now ∷ secondary.now ∷ count.now ∷ idles.now ∷ []) (request_of c)) }
    ensures only { (asked : Request) → AsksFor (command.now ∷ primary.now ∷ secondary.now ∷ count.now ∷ idles.now
        ∷ []) asked → option_map request_of result ≡ Some asked }
{
    if command == "serve" {
        let asked = serve_words(primary, secondary, count, idles)?;
        return Some(Command::Serve(asked));
    }
    None
}

/// The command of six words.
fn with_client<'a>(
    command: &str,
    inside: &str,
    primary: &str,
    secondary: &str,
    seed: &str,
    turns: &str,
) -> Option<Command<'a>>
    ensures found { IfSome result (λ c. AsksFor (command.now ∷ inside.now ∷ primary.now ∷ secondary.now ∷ seed.now ∷ turns.now ∷ []) (request_of c)) }
    ensures only { (asked : Request) → AsksFor (command.now ∷ inside.now ∷ primary.now ∷ secondary.now ∷ seed.now ∷ turns.now
        ∷ []) asked → option_map request_of result ≡ Some asked }
{
    if command == "qualify" {
        let asked = qualify_words(inside, primary, secondary, seed, turns)?;
        return Some(Command::Qualify(asked));
    }
    None
}

/// The command of more than four words, where they are one.
fn with_many(words: &[String]) -> Option<Command<'_>>
    requires many { 4 < length words.now }
    ensures found { IfSome result (λ c. AsksFor (map string_bytes words.now) (request_of c)) }
    ensures only { (asked : Request) → AsksFor (map string_bytes words.now) asked → option_map request_of result ≡ Some asked }
{
    match words {
        [command, primary, secondary, count, idles] => with_addresses(
            command.as_str(),
            primary.as_str(),
            secondary.as_str(),
            count.as_str(),
            idles.as_str(),
        ),
        [command, inside, primary, secondary, seed, turns] => with_client(
            command.as_str(),
            inside.as_str(),
            primary.as_str(),
            secondary.as_str(),
            seed.as_str(),
            turns.as_str(),
        ),
        _ => None,
    }
}

/// The command of the words, where they are one.
pub fn command_of(words: &[String]) -> Option<Command<'_>>
    /// The words are a command exactly where they are spelled as one. `AsksFor` says it of all commands, also of those
    /// that play a scenario. There are two addresses that differ, and two numbers in their ranges, each in its one
    /// spelling.
    ensures found { IfSome result (λ c. AsksFor (map string_bytes words.now) (request_of c)) }
    /// See `found`.
    ensures only { (asked : Request) → AsksFor (map string_bytes words.now) asked → option_map request_of result ≡ Some asked }
{
    if words.len() > 4 {
        return with_many(words);
    }
    match words {
        [command, word] => with_word(command.as_str(), word.as_str()),
        [command, first, second] => with_two(command.as_str(), first.as_str(), second.as_str()),
        [command, first, second, third] => with_three(
            command.as_str(),
            first.as_str(),
            second.as_str(),
            third.as_str(),
        ),
        _ => None,
    }
}
