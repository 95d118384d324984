//! Following a buffer, from the request to its end.
ghost use Rattle.std.specs.Prelude.{◌≡◌, ℕ, ◌≤◌, List, length, IfOk};
ghost use Rattle.std.specs.Io.KnownBytes.{append_known};
ghost use Rattle.std.specs.List.{concat};
ghost use Rattle.nv_io.specs.Faults.{Rose};
ghost use Rattle.nv_io.specs.Streams.{GaveEach};
ghost use Rattle.nv_mirror.specs.Asking.{request_bytes};
ghost use Rattle.nv_mirror.specs.inside.Steps.{IsFreshClient};
ghost use Rattle.nv_mirror.specs.Ends.{ServerTook, FollowsTo, IsReadToEnd, ListsAtOnce};

use crate::asking::request_bytes;
use crate::client::{Client, PIECE};
use crate::followed::Followed;
use nv_io::{Sink, Source, put_all};
use std::alloc::{AllocError, Global};

// What following takes: a client, its request, and room for what is read at once.
fn prepare(alloc: Global, buffer: i64) -> Result<(Client, Vec<u8>, Vec<u8>), AllocError>
    ensures client { IfOk result (λ made. IsFreshClient buffer made.0) }
    ensures request { IfOk result (λ made. made.1.items ≡ request_bytes buffer) }
    ensures room { IfOk result (λ made. length made.2.items ≡ PIECE) }
{
    let client = Client::new(alloc, buffer)?;
    let request = request_bytes(alloc, buffer)?;
    let room = vec![in alloc; 0; PIECE]?;
    Ok((client, request, room))
}

/// Follows the buffer of a handle: asks `server` to attach to it, reads what comes from `input`,
/// and writes to `output` the text at each event that tells lines, as it comes: a line `tick T
/// lines N` with the changedtick and the number of lines, and then the lines.
///
/// It ends at the first value that ends it, and looks at nothing behind that. A read may wait for
/// the server.
pub fn follow<R, I: Source, S: Sink, O: Sink>(
    rt: &R,
    alloc: Global,
    input: &mut I,
    server: &mut S,
    output: &mut O,
    buffer: i64,
) -> Followed
    ensures follows { (pieces : List (List ℕ)) × (listed : List ℕ)
        × GaveEach (I.words input.old)
        (I.words input.new) pieces
        × ((O.words output.new).taken ≡ append_known (O.words output.old).taken listed)
        × FollowsTo (IsReadToEnd (I.words input.new).left (concat pieces)) buffer result
        (concat pieces)
        listed
        × ListsAtOnce buffer pieces listed }
    ensures asks { ServerTook buffer result (S.words server.old).taken (S.words server.new).taken }
    ensures read_later { (I.words input.old).faults ≤ (I.words input.new).faults }
    ensures read { result ≡ Followed.ReadFault → Rose (I.words input.old).faults
        (I.words input.new).faults }
    ensures ask_later { (S.words server.old).faults ≤ (S.words server.new).faults }
    ensures ask { result ≡ Followed.ServerFault → Rose (S.words server.old).faults
        (S.words server.new).faults }
    ensures write_later { (O.words output.old).faults ≤ (O.words output.new).faults }
    ensures write { result ≡ Followed.OutputFault
        → Rose (O.words output.old).faults (O.words output.new).faults }
{
    let Ok((mut client, request, mut room)) = prepare(alloc, buffer) else {
        return Followed::NoMemory;
    };
    if !put_all(rt, server, request.as_slice()) {
        return Followed::ServerFault;
    }
    client.run(rt, input, &mut room, output)
}
