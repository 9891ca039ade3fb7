//! The ranges of the numbers of commands, and which number is out of its own.
ghost use Rattle.std.specs.Prelude.{◌≡◌, None, IfNone, IfSome, IsSome};
ghost use Rattle.program_words.specs.Words.{number_between};

use crate::line::command_line;
use crate::number::number_between;
use std::alloc::Global;
use std::fmt;

/// A word that stands where a number of this range is wanted, and isn't one.
#[derive(Clone, Copy, Debug, PartialEq, Eq)]
pub struct NumberFault<'a> {
    /// What the number is, as the usage line names it.
    pub name: &'static str,
    pub word: &'a str,
    pub least: u64,
    pub most: u64,
}

impl fmt::Display for NumberFault<'_> {
    fn fmt<W: fmt::Write>(&self, f: &mut fmt::Formatter<W>) -> fmt::Result {
        let NumberFault {
            name,
            word,
            least,
            most,
        } = *self;
        write!(
            f,
            "{name} is {word:?}, and has to be a number from {least} to {most}"
        )
    }
}

/// The first number among the words of a command line that isn't in its range. `None` where they are wrong in another way or
/// not at all, or where there is no memory to read them.
pub fn number_fault<'a>(alloc: Global, words: &'a [String]) -> Option<NumberFault<'a>>
    ensures { IfSome result (λ f. number_between f.least f.most f.word.now ≡ None) }
{
    let matches = command_line(alloc).ok()?.try_get_matches_from(words).ok()?;
    fault_in(matches.get_strs("words")?)
}

// The same among values, of which the first names the command.
fn fault_in<'a>(values: &[&'a str]) -> Option<NumberFault<'a>>
    ensures { IfSome result (λ f. number_between f.least f.most f.word.now ≡ None) }
{
    let (name, rest) = values.split_first()?;
    match *name {
        "init" => init(rest),
        "serve" => serve(rest),
        "gen" => generate(rest),
        _ => None,
    }
}

fn init<'a>(rest: &[&'a str]) -> Option<NumberFault<'a>>
    ensures { IfSome result (λ f. number_between f.least f.most f.word.now ≡ None) }
{
    let [_, capacity] = rest else {
        return None;
    };
    outside("CAP", capacity, 4_096, 34_359_738_368)
}

fn serve<'a>(rest: &[&'a str]) -> Option<NumberFault<'a>>
    ensures { IfSome result (λ f. number_between f.least f.most f.word.now ≡ None) }
{
    let [_, _, lanes, derivers, connections] = rest else {
        return None;
    };
    let lanes = outside("LANES", lanes, 1, 4_096);
    if lanes.is_some() {
        return lanes;
    }
    let derivers = outside("DERIVERS", derivers, 0, 8);
    if derivers.is_some() {
        return derivers;
    }
    outside("CONNECTIONS", connections, 1, 1_000_000_000_000_000)
}

fn generate<'a>(rest: &[&'a str]) -> Option<NumberFault<'a>>
    ensures { IfSome result (λ f. number_between f.least f.most f.word.now ≡ None) }
{
    let [seed, stacks, clients] = rest else {
        return None;
    };
    let seed = outside("SEED", seed, 0, 4_294_967_295);
    if seed.is_some() {
        return seed;
    }
    let stacks = outside("STACKS", stacks, 1, 400);
    if stacks.is_some() {
        return stacks;
    }
    outside("CLIENTS", clients, 1, 8)
}

// The fault of the word, unless it is a number of this range.
fn outside<'a>(name: &'static str, word: &'a str, least: u64, most: u64) -> Option<NumberFault<'a>>
    ensures fault { IfSome result (λ f. number_between f.least f.most f.word.now ≡ None) }
    ensures none { IfNone result (IsSome (number_between least most word.now)) }
{
    if number_between(word, least, most).is_some() {
        return None;
    }
    Some(NumberFault {
        name,
        word,
        least,
        most,
    })
}
