//! What the program tells of itself.
ghost use Rattle.std.specs.Prelude.{◌≡◌};
ghost use Rattle.nv_io.specs.Faults.{Rose};
ghost use Rattle.nv_run.specs.Notices.{WritesText, text_of_notice};

use nv_io::{Sink, put_all};
use nv_replay::WriteEnd;
use nv_words::Notice;

/// The commands with their words, and the statuses.
pub const HELP: &str = "\
nvimd: a headless Neovim, for programs that speak MessagePack-RPC

Usage:
  nvimd embed [--outbox N]
  nvimd serve --listen A [--sessions N] [--outbox N] [--book F]
  nvimd replay F [--check]
  nvimd generate N
  nvimd follow A B
  nvimd help
  nvimd --version

Commands:
  embed     one session over standard input and output, like nvim --embed
  serve     many sessions on one editor, over the connections to the address A
  replay    writes what the sessions in the book F were sent
  generate  writes the book of the script that N gives
            (N: 0 to 18446744073709551615)
  follow    writes the text of buffer B of the server at A, at each change
            (B: 1 to 4611686018427387904)
  help      writes this, as do -h and --help, also after a command

Options:
  --listen A    a Unix socket if A begins with /, or else host:port
  --sessions N  sessions that run at once: 1 to 256, 64 if not given
  --outbox N    messages that may wait for a session: 16 to 1048576, 4096 if
                not given
  --book F      records all that happens in the file F
  --check       compares the book F with what comes out, and writes counts

Exit status:
  0  done                     6  malformed input, or malformed book
  1  out of memory            7  outbox overflow
  2  bad command line         8  replay --check: the book differs
  3  read fault               9  follow: the server refused
  4  write fault             10  follow: an event does not fit
  5  no listening, or no connection

The manual is docs/PROTOCOL.md.
";

/// The name and the version.
pub const VERSION: &str = "nvimd 0.1.0\n";

// The text of a notice.
fn text_of(notice: Notice) -> &'static str
    ensures { result.now ≡ text_of_notice notice }
{
    match notice {
        Notice::Help => HELP,
        Notice::Version => VERSION,
    }
}

/// Writes the text of a notice to `output`.
pub fn show<R, S: Sink>(rt: &R, output: &mut S, notice: Notice) -> WriteEnd
    ensures writes { WritesText (text_of_notice notice) result (S.words output.old).taken
        (S.words output.new).taken }
    ensures write { result ≡ WriteEnd.WriteFault
        → Rose (S.words output.old).faults (S.words output.new).faults }
{
    if put_all(rt, output, text_of(notice).as_bytes()) {
        WriteEnd::Done
    } else {
        WriteEnd::WriteFault
    }
}
