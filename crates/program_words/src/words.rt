//! From the words to the command.
ghost use Rattle.std.specs.Prelude.{◌≡◌, IfErr, IfOk, IfSome, None, Some, map, option_map, string_bytes};
ghost use Rattle.program_words.specs.Words.{command_of, follow_of, fsck_of, gen_of, init_of, migrate_of, request_of, serve_of, session_of};
ghost use Rattle.program_words.specs.Said.{IsInRange, said_of};
ghost use Rattle.program_words.specs.declared.fault.WordsFault.TheVariants.{Usage};

use crate::command::Command;
use crate::fault::WordsFault;
use crate::line::command_line;
use crate::number::number_between;
use clap::error::ErrorKind;
use std::alloc::Global;

fn init<'a>(rest: &[&'a str]) -> Option<Command<'a>>
    ensures request { option_map said_of result ≡ init_of (map (λ w. w.now) rest.now) }
    ensures range { IfSome result IsInRange }
{
    let [file, capacity] = rest else {
        return None;
    };
    let capacity = number_between(capacity, 4_096, 34_359_738_368)?;
    Some(Command::Init { file, capacity })
}

fn session<'a>(rest: &[&'a str]) -> Option<Command<'a>>
    ensures request { option_map said_of result ≡ session_of (map (λ w. w.now) rest.now) }
    ensures range { IfSome result IsInRange }
{
    let [file] = rest else {
        return None;
    };
    Some(Command::Session { file })
}

fn serve<'a>(rest: &[&'a str]) -> Option<Command<'a>>
    ensures request { option_map said_of result ≡ serve_of (map (λ w. w.now) rest.now) }
    ensures range { IfSome result IsInRange }
{
    let [file, address, lanes, derivers, connections] = rest else {
        return None;
    };
    let lanes = number_between(lanes, 1, 4_096)?;
    let derivers = number_between(derivers, 0, 8)?;
    let connections = number_between(connections, 1, 1_000_000_000_000_000)?;
    Some(Command::Serve {
        file,
        address,
        lanes: lanes as u32,
        derivers: derivers as u32,
        connections,
    })
}

fn fsck<'a>(rest: &[&'a str]) -> Option<Command<'a>>
    ensures request { option_map said_of result ≡ fsck_of (map (λ w. w.now) rest.now) }
    ensures range { IfSome result IsInRange }
{
    let [file] = rest else {
        return None;
    };
    Some(Command::Fsck { file })
}

fn migrate<'a>(rest: &[&'a str]) -> Option<Command<'a>>
    ensures request { option_map said_of result ≡ migrate_of (map (λ w. w.now) rest.now) }
    ensures range { IfSome result IsInRange }
{
    let [old, new] = rest else {
        return None;
    };
    Some(Command::Migrate { old, new })
}

fn generate<'a>(rest: &[&'a str]) -> Option<Command<'a>>
    ensures request { option_map said_of result ≡ gen_of (map (λ w. w.now) rest.now) }
    ensures range { IfSome result IsInRange }
{
    let [seed, stacks, clients] = rest else {
        return None;
    };
    let seed = number_between(seed, 0, 4_294_967_295)?;
    let stacks = number_between(stacks, 1, 400)?;
    let clients = number_between(clients, 1, 8)?;
    Some(Command::Gen {
        seed: seed as u32,
        stacks: stacks as u32,
        clients: clients as u32,
    })
}

fn follow<'a>(rest: &[&'a str]) -> Option<Command<'a>>
    ensures request { option_map said_of result ≡ follow_of (map (λ w. w.now) rest.now) }
    ensures range { IfSome result IsInRange }
{
    let [file, address] = rest else {
        return None;
    };
    Some(Command::Follow { file, address })
}

fn command_from<'a>(values: &[&'a str]) -> Option<Command<'a>>
    ensures request { option_map said_of result ≡ request_of (map (λ w. w.now) values.now) }
    ensures range { IfSome result IsInRange }
{
    let (name, rest) = values.split_first()?;
    match *name {
        "init" => init(rest),
        "session" => session(rest),
        "serve" => serve(rest),
        "fsck" => fsck(rest),
        "migrate" => migrate(rest),
        "gen" => generate(rest),
        "follow" => follow(rest),
        _ => None,
    }
}

/// The command that the words of a command line are, of which the first is the program's name. Up to the word `--`, a
/// hyphen with characters after it begins a flag, and the first flag decides: `--help` or `-h` asks for help, `--version`
/// or `-V` for the version, whatever the other words are, and words with any other flag are no command.
///
/// # Errors
/// `Usage` exactly where the words are no command with its numbers in their ranges; `Memory` where memory ran out.
pub fn read_words<'a>(alloc: Global, words: &'a [String]) -> Result<Command<'a>, WordsFault>
    ensures command { IfOk result (λ c. command_of (map string_bytes words.entry.now) ≡ Some (said_of c)) }
    ensures range { IfOk result IsInRange }
    ensures usage { IfErr result (λ e. e ≡ Usage → command_of (map string_bytes words.entry.now) ≡ None) }
{
    match command_line(alloc)?.try_get_matches_from(words) {
        Ok(matches) => match matches.get_strs("words") {
            Some(values) => command_from(values).ok_or(WordsFault::Usage),
            None => Err(WordsFault::Usage),
        },
        Err(error) => match error.kind() {
            ErrorKind::DisplayHelp => Ok(Command::Help),
            ErrorKind::DisplayVersion => Ok(Command::Version),
            ErrorKind::OutOfMemory => Err(WordsFault::Memory),
            _ => Err(WordsFault::Usage),
        },
    }
}
