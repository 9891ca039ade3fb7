//! The lines that the program writes.
ghost use Rattle.std.specs.Prelude.{◌≡◌, ◌++◌, codes, decimal, map, OnOk, OnErr, is_err};
ghost use Rattle.std.specs.List.{concat};
ghost use Rattle.ports.specs.Faults.{Counts as FaultCounts};
ghost use Rattle.ports.specs.Streams.{Puts, PutsFront};
ghost use Rattle.command_line.specs.Reports.{Reports, after_fault, counts_text, loaded_text, migrated_text, report_text, served_text, status_of};

use crate::status::Status;
use itoa::Buffer;
use object_id::Id;
use object_id::id::HEX_LENGTH;
use ports::{Failed, Link};
use program_words::texts::{HELP, USAGE, VERSION};
use repo_machine::Counts;

/// What the program reports of a run, in one line; the help text has several.
#[derive(Clone, Copy, Debug, PartialEq, Eq)]
pub enum Report {
    /// A repository was made, with this capacity in bytes.
    Ready { capacity: u64 },
    /// How much a repository has.
    Counted(Counts),
    /// A repository was copied, with this many stored entries and bytes.
    Migrated { entries: u64, size: u64 },
    /// Connections were served, and the repository has this many stored entries since.
    Served { connections: u64, entries: u64 },
    /// A load landed so many stacks, and its repository has this many stored entries and this root of the tree.
    Loaded { landed: u64, entries: u64, root: Id },
    /// A call of a load was refused.
    LoadRefused,
    /// A server was followed to the end of its log, and the repository has this many stored entries since.
    Followed { entries: u64 },
    /// What a server that was followed sent for the entry of this number is no reply.
    BadReply { number: u64 },
    /// The entry of this number of a server that was followed is another one here, or the server has only so many.
    Differs { number: u64 },
    /// The entry of this number of a server that was followed doesn't fit the file.
    Full { number: u64 },
    /// The words ask for help.
    Help,
    /// The words ask for the version.
    Version,
    /// The words are no command.
    Usage,
    /// The file wasn't opened, or a call of it failed.
    DiskFault,
    /// The file holds no repository.
    NotARepository,
    /// The file has the first version, into which no server is followed.
    OldFormat,
    /// A repository is damaged at this place of its file, in bytes.
    Damaged { at: u64 },
    /// A repository was to be made in a file with bytes.
    NotEmpty,
    /// Memory ran out.
    NoMemory,
    /// Input or output failed.
    StreamFault,
}

impl Report {
    /// The status of a run that is reported so, where its line is written.
    pub fn status(&self) -> Status
        ensures { result ≡ status_of self.now }
    {
        match self {
            Report::Ready { .. }
            | Report::Counted(_)
            | Report::Migrated { .. }
            | Report::Served { .. }
            | Report::Loaded { .. }
            | Report::Followed { .. }
            | Report::Help
            | Report::Version => Status::Done,
            Report::LoadRefused => Status::LoadRefused,
            Report::BadReply { .. } => Status::BadReply,
            Report::Differs { .. } => Status::Differs,
            Report::Full { .. } => Status::Full,
            Report::Usage => Status::Usage,
            Report::DiskFault => Status::DiskFault,
            Report::NotARepository | Report::Damaged { .. } | Report::OldFormat => Status::BadFile,
            Report::NotEmpty => Status::NotEmpty,
            Report::NoMemory => Status::NoMemory,
            Report::StreamFault => Status::StreamFault,
        }
    }

    /// Writes the line. It takes no memory.
    pub fn write<L: Link>(&self, link: &mut L) -> Result<(), Failed>
        ensures ok { OnOk result (Puts (report_text self.now) (L.written link.old) (L.written link.new)) }
        ensures err { OnErr result (PutsFront (report_text self.now) (L.written link.old) (L.written link.new)) }
        ensures input { L.rest link.new ≡ L.rest link.old }
        ensures faults { FaultCounts (L.faults link.old) (L.faults link.new) (is_err result) }
    {
        match self {
            Report::Ready { capacity } => write_number(b"ready ", *capacity, link),
            Report::Counted(counts) => write_counts(counts, link),
            Report::Migrated { entries, size } => write_migrated(*entries, *size, link),
            Report::Served {
                connections,
                entries,
            } => write_served(*connections, *entries, link),
            Report::Loaded {
                landed,
                entries,
                root,
            } => write_loaded(*landed, *entries, root, link),
            Report::LoadRefused => link.write(b"load refused\n"),
            Report::Followed { entries } => write_number(b"followed ", *entries, link),
            Report::BadReply { number } => write_number(b"bad reply at ", *number, link),
            Report::Differs { number } => write_number(b"differs at ", *number, link),
            Report::Full { number } => write_number(b"full at ", *number, link),
            Report::Help => link.write(HELP.as_bytes()),
            Report::Version => link.write(VERSION.as_bytes()),
            Report::Usage => link.write(USAGE.as_bytes()),
            Report::DiskFault => link.write(b"disk fault\n"),
            Report::NotARepository => link.write(b"not a repository\n"),
            Report::OldFormat => link.write(b"old format\n"),
            Report::Damaged { at } => write_number(b"damaged at ", *at, link),
            Report::NotEmpty => link.write(b"file is not empty\n"),
            Report::NoMemory => link.write(b"no memory\n"),
            Report::StreamFault => link.write(b"stream fault\n"),
        }
    }
}

// Writes a line that ends with a number.
fn write_number<L: Link>(text: &[u8], number: u64, link: &mut L) -> Result<(), Failed>
    ensures ok { OnOk result (Puts (text.now ++ (decimal number ++ codes "\n")) (L.written link.old) (L.written link.new)) }
    ensures err { OnErr result (PutsFront (text.now ++ (decimal number ++ codes "\n")) (L.written link.old) (L.written link.new)) }
    ensures input { L.rest link.new ≡ L.rest link.old }
    ensures faults { FaultCounts (L.faults link.old) (L.faults link.new) (is_err result) }
{
    let mut digits = Buffer::new();
    let number = digits.format(number).as_bytes();
    write_pieces(&[text, number, b"\n"], link)
}

// Writes the line of what was copied.
fn write_migrated<L: Link>(entries: u64, size: u64, link: &mut L) -> Result<(), Failed>
    ensures ok { OnOk result (Puts (migrated_text entries size) (L.written link.old) (L.written link.new)) }
    ensures err { OnErr result (PutsFront (migrated_text entries size) (L.written link.old) (L.written link.new)) }
    ensures input { L.rest link.new ≡ L.rest link.old }
    ensures faults { FaultCounts (L.faults link.old) (L.faults link.new) (is_err result) }
{
    let [mut stored, mut bytes] = [Buffer::new(); 2];
    let entries = stored.format(entries).as_bytes();
    let size = bytes.format(size).as_bytes();
    write_pieces(&[b"migrated ", entries, b" size ", size, b"\n"], link)
}

// Writes the line of what was served.
fn write_served<L: Link>(connections: u64, entries: u64, link: &mut L) -> Result<(), Failed>
    ensures ok { OnOk result (Puts (served_text connections entries) (L.written link.old) (L.written link.new)) }
    ensures err { OnErr result (PutsFront (served_text connections entries) (L.written link.old) (L.written link.new)) }
    ensures input { L.rest link.new ≡ L.rest link.old }
    ensures faults { FaultCounts (L.faults link.old) (L.faults link.new) (is_err result) }
{
    let [mut served, mut stored] = [Buffer::new(); 2];
    let connections = served.format(connections).as_bytes();
    let entries = stored.format(entries).as_bytes();
    write_pieces(
        &[b"served ", connections, b" entries ", entries, b"\n"],
        link,
    )
}

// Writes the line of what a load came to.
fn write_loaded<L: Link>(landed: u64, entries: u64, root: &Id, link: &mut L) -> Result<(), Failed>
    ensures ok { OnOk result (Puts (loaded_text landed entries root.now) (L.written link.old) (L.written link.new)) }
    ensures err { OnErr result (PutsFront (loaded_text landed entries root.now) (L.written link.old) (L.written link.new)) }
    ensures input { L.rest link.new ≡ L.rest link.old }
    ensures faults { FaultCounts (L.faults link.old) (L.faults link.new) (is_err result) }
{
    let [mut stacks, mut stored] = [Buffer::new(); 2];
    let mut hex = [0; HEX_LENGTH];
    root.write_hex(&mut hex);
    let pieces: [&[u8]; 7] = [
        b"landed ",
        stacks.format(landed).as_bytes(),
        b" entries ",
        stored.format(entries).as_bytes(),
        b" root ",
        &hex,
        b"\n",
    ];
    write_pieces(&pieces, link)
}

// Writes the line of a repository's counts.
fn write_counts<L: Link>(counts: &Counts, link: &mut L) -> Result<(), Failed>
    ensures ok { OnOk result (Puts (counts_text counts.now) (L.written link.old) (L.written link.new)) }
    ensures err { OnErr result (PutsFront (counts_text counts.now) (L.written link.old) (L.written link.new)) }
    ensures input { L.rest link.new ≡ L.rest link.old }
    ensures faults { FaultCounts (L.faults link.old) (L.faults link.new) (is_err result) }
{
    let [mut a, mut b, mut c, mut d, mut e] = [Buffer::new(); 5];
    let pieces: [&[u8]; 11] = [
        b"entries ",
        a.format(counts.entries).as_bytes(),
        b" contents ",
        b.format(counts.contents).as_bytes(),
        b" changesets ",
        c.format(counts.changesets).as_bytes(),
        b" bookmarks ",
        d.format(counts.bookmarks).as_bytes(),
        b" size ",
        e.format(counts.size).as_bytes(),
        b"\n",
    ];
    write_pieces(&pieces, link)
}

// Writes the pieces, one behind another.
fn write_pieces<L: Link>(pieces: &[&[u8]], link: &mut L) -> Result<(), Failed>
    ensures ok { OnOk result (Puts (concat (map (λ piece. piece.now) pieces.now)) (L.written link.old) (L.written link.new)) }
    ensures err { OnErr result (PutsFront (concat (map (λ piece. piece.now) pieces.now)) (L.written link.old) (L.written link.new)) }
    ensures input { L.rest link.new ≡ L.rest link.old }
    ensures faults { FaultCounts (L.faults link.old) (L.faults link.new) (is_err result) }
{
    for piece in pieces {
        link.write(piece)?;
    }
    Ok(())
}

// A line that can't be written is told only where nothing is wrong but that, or where a load was refused or a server wasn't
// followed to its end.
fn after_fault(status: Status) -> Status
    ensures { result ≡ after_fault status }
{
    match status {
        Status::Done | Status::BadReply | Status::Differs | Status::Full | Status::LoadRefused =>
            Status::StreamFault,
        status => status,
    }
}

/// Ends a run with its report. The status says what is wrong, also where the line can't be written; where nothing else
/// is wrong, or a load was refused or a server wasn't followed to its end, it says that.
pub fn end_run<L: Link>(report: Report, link: &mut L) -> Status
    ensures reports { Reports report result (L.written link.old) (L.written link.new) (L.faults link.old) (L.faults link.new) }
    ensures input { L.rest link.new ≡ L.rest link.old }
{
    let written = report.write(link);
    let status = report.status();
    if written.is_err() {
        after_fault(status)
    } else {
        status
    }
}
