//! Whether words ask for a session, where there is no memory to read them.
ghost use Rattle.std.specs.Prelude.{◌≡◌, [], ◌∷◌, map, string_bytes};
ghost use Rattle.program_words.specs.Words.{arguments_of, asked, command_of, part_of};
ghost use Rattle.program_words.specs.Sessions.{is_session, is_value};

/// Whether the words of a command line, of which the first is the program's name, ask for a session. It takes no memory.
pub fn asks_session(words: &[String]) -> bool
    ensures { result ≡ is_session (command_of (map string_bytes words.now)) }
{
    if words.len() == 3 {
        are_session(words[1].as_str(), words[2].as_str())
    } else if words.len() == 4 {
        are_session_with_escape(words[1].as_str(), words[2].as_str(), words[3].as_str())
    } else {
        false
    }
}

fn are_session(name: &str, file: &str) -> bool
    ensures { result ≡ is_session (asked (arguments_of (name.now ∷ file.now ∷ []))) }
{
    name == "session" && is_value(file)
}

// One of the words is `--`, after which no word is a flag.
fn are_session_with_escape(first: &str, second: &str, third: &str) -> bool
    ensures { result ≡ is_session (asked (arguments_of (first.now ∷ second.now ∷ third.now ∷ []))) }
{
    if first == "--" {
        second == "session"
    } else if second == "--" {
        first == "session"
    } else if third == "--" {
        are_session(first, second)
    } else {
        false
    }
}

// Whether the word is no flag, where no `--` stands before it.
fn is_value(word: &str) -> bool
    ensures { result ≡ is_value (part_of word.now) }
{
    match word.strip_prefix("-") {
        Some(flag) => !flag.starts_with("-") && flag.chars().next().is_none(),
        None => true,
    }
}
