//! The texts that the program answers words with. Each ends with a line feed.

/// The line that answers words which are no command.
pub const USAGE: &str =
    "usage: hg_cli init FILE CAP | session FILE | serve FILE ADDR LANES DERIVERS CONNECTIONS | fsck FILE | migrate OLD NEW | gen SEED STACKS CLIENTS | follow FILE ADDR\n";

/// The text that answers `--help` and `-h`: each command in one line, with the ranges of its numbers.
pub const HELP: &str = "hg_cli keeps a repository in one file and serves it over HTTP.

hg_cli init FILE CAP   makes a repository of at most CAP bytes (4096 to 34359738368) in a new or empty file
hg_cli session FILE   serves one connection on standard input and output
hg_cli serve FILE ADDR LANES DERIVERS CONNECTIONS   serves CONNECTIONS connections (1 to 1000000000000000) at ADDR, by LANES lanes (1 to 4096) and DERIVERS derivers (0 to 8)
hg_cli fsck FILE   opens a repository and counts what it holds
hg_cli migrate OLD NEW   copies the repository in OLD to a new or empty file NEW, in the second version, which policies and joined contents need
hg_cli gen SEED STACKS CLIENTS   lands STACKS stacks (1 to 400) from each of CLIENTS clients (1 to 8), drawn from SEED (0 to 4294967295), in memory
hg_cli follow FILE ADDR   brings the repository in FILE, of the second version, to what the server at ADDR has, entry by entry
hg_cli --help   writes this text (also -h)
hg_cli --version   writes the version (also -V)

A number is decimal digits without a sign or a leading zero. After the word -- no word is a flag.
";

/// The line that answers `--version` and `-V`.
pub const VERSION: &str = "hg_cli 1.0.0\n";
