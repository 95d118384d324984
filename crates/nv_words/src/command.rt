//! What the words of the command line ask for.

/// A command, with its options.
#[derive(Clone, Copy, PartialEq, Eq, Debug)]
pub enum Command<'a> {
    /// One session over the standard streams. An outbox holds so many messages: 16 to 1,048,576.
    Embed {
        outbox: u32,
    },
    /// Sessions over the connections to an address: a path that begins with `/`, or `host:port`.
    /// At most so many sessions run at once, from 1 to 256; an outbox is as for `Embed`. The book
    /// of the run goes to the file `book`.
    Serve {
        address: &'a str,
        sessions: usize,
        outbox: u32,
        book: Option<&'a str>,
    },
    /// The book in a file played again; `check` asks for the comparison with what it holds.
    Replay {
        file: &'a str,
        check: bool,
    },
    /// The book of the script that a number draws.
    Generate {
        number: u64,
    },
    /// The texts of a buffer of the server at an address, as for `Serve`. The number of the buffer
    /// is from 1 to 4,611,686,018,427,387,904.
    Follow {
        address: &'a str,
        buffer: u64,
    },
    /// A text about the program itself.
    Show {
        notice: Notice,
    },
}

/// What the program tells of itself.
#[derive(Clone, Copy, PartialEq, Eq, Debug)]
pub enum Notice {
    /// The commands with their words, and the statuses.
    Help,
    Version,
}

/// Why the words ask for nothing.
#[derive(Clone, Copy, PartialEq, Eq, Debug)]
pub enum Refusal {
    NoMemory,
    /// They are no command.
    BadWords,
}
