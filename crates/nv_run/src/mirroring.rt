//! A client that follows a buffer of the server at an address.
ghost use Rattle.std.specs.Prelude.{◌≡◌, ◌≤◌, pos};
ghost use Rattle.nv_io.specs.Faults.{Rose};
ghost use Rattle.nv_mirror.specs.declared.followed.Followed.TheVariants.{OutputFault};
ghost use Rattle.nv_run.specs.Mirroring.{LeavesDial};
ghost use Rattle.nv_run.specs.declared.mirroring.FollowEnd.{FollowEnd};

use nv_io::{Dial, Sink};
use nv_mirror::Followed;
use std::alloc::Global;
use std::net::{Net, TcpListener, TcpStream};

/// How the command that follows a buffer ended.
#[derive(Drop)]
pub enum FollowEnd {
    /// Out of memory before the address was dialed.
    NoMemory,
    /// The address gave no connection.
    Unconnected,
    Connected(Followed),
}

// The handle of the buffer of this number.
fn handle_of(buffer: u64) -> i64
    requires { buffer ≤ 4611686018427387904 }
    ensures value { result ≡ pos buffer }
{
    buffer as i64
}

/// Follows a buffer of the server at an address. The halves of the connection go back.
pub fn follow<R: Net<Listener = TcpListener, Stream = TcpStream>, S: Sink, D: Dial>(
    rt: &R,
    alloc: Global,
    address: &str,
    buffer: u64,
    output: &mut S,
    dial: &mut D,
) -> FollowEnd
    requires may { D.may address.now }
    requires number { buffer ≤ 4611686018427387904 }
    ensures leaves { LeavesDial (record {
      input = D.In.Source.words;
      output = D.Out.Sink.words;
    }) (pos buffer) result (D.words dial.old) (D.words dial.new) (S.words output.old).taken
        (S.words output.new).taken }
    ensures lent { (D.words dial.new).lent ≡ (D.words dial.old).lent }
    ensures write { result ≡ FollowEnd.Connected OutputFault
        → Rose (S.words output.old).faults (S.words output.new).faults }
{
    let Some((mut input, mut server)) = dial.dial(rt, address) else {
        return FollowEnd::Unconnected;
    };
    let handle = handle_of(buffer);
    let followed = nv_mirror::follow(rt, alloc, &mut input, &mut server, output, handle);
    dial.back(input, server);
    FollowEnd::Connected(followed)
}
