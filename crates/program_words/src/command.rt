//! The commands of the program.

/// What the words of a command line ask for. Texts are borrowed from the words.
#[derive(Clone, Copy, Debug, PartialEq, Eq)]
pub enum Command<'a> {
    /// Make a repository in a file.
    Init {
        file: &'a str,
        /// The most bytes that the file may have, 4,096 to 34,359,738,368.
        capacity: u64,
    },
    /// Serve one connection on standard input and output.
    Session {
        file: &'a str,
    },
    /// Serve connections at an address.
    Serve {
        file: &'a str,
        address: &'a str,
        /// Lanes that serve connections, 1 to 4,096.
        lanes: u32,
        /// Threads that derive manifests, 0 to 8.
        derivers: u32,
        /// Connections that are accepted before the program ends, 1 to 1,000,000,000,000,000.
        connections: u64,
    },
    /// Open a repository and count what it holds.
    Fsck {
        file: &'a str,
    },
    /// Copy a repository to a file of the second version.
    Migrate {
        old: &'a str,
        new: &'a str,
    },
    /// Land stacks that are drawn from a seed, in a repository in memory.
    Gen {
        /// Where the draws begin, 0 to 4,294,967,295.
        seed: u32,
        /// Stacks of each client, 1 to 400.
        stacks: u32,
        /// Clients that land at once, 1 to 8.
        clients: u32,
    },
    /// Follow the server at an address into a file.
    Follow {
        file: &'a str,
        address: &'a str,
    },
    /// Write the help text.
    Help,
    /// Write the version line.
    Version,
}
