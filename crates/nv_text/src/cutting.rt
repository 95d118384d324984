//! A line cut into its pieces.
ghost use Rattle.std.specs.Int.{is_in_range};
ghost use Rattle.std.specs.List.{list_all};
ghost use Rattle.std.specs.Prelude.{◌≡◌, ◌+◌, ◌<◌, ◌≤◌, ◌^◌, ◌++◌, All, true, length, take, OnOk, IfOk, IfSome};
ghost use Rattle.nv_text.specs.Pieces.{cluster_parts, text_parts, pieces_from, pieces_of};

use crate::kinds::{cluster_kind, plain_len, text_at_front};
use crate::piece::{Kind, Piece};
use std::alloc::{AllocError, Global};
use unicode_segmentation::UnicodeSegmentation;

fn push_cluster(pieces: &mut Vec<Piece>, from: usize, cluster: &str) -> Result<(), AllocError>
    requires { from + length cluster.now < 2 ^ 64 }
    ensures { OnOk result (pieces.new.items
        ≡ pieces.old.items ++ pieces_from from (cluster_parts cluster.now)) }
{
    let to = from + cluster.len();
    if cluster == "\r\n" {
        pieces.push(Piece {
            from,
            to: from + 1,
            kind: Kind::Control(b'\r'),
        })?;
        pieces.push(Piece {
            from: from + 1,
            to,
            kind: Kind::Control(b'\n'),
        })?;
    } else {
        pieces.push(Piece {
            from,
            to,
            kind: cluster_kind(cluster),
        })?;
    }
    Ok(())
}

fn push_plain(pieces: &mut Vec<Piece>, from: usize, text: &str) -> Result<(), AllocError>
    requires small { from + length text.now < 2 ^ 64 }
    requires plain { list_all (is_in_range 0x20 0x7E) text.now ≡ true }
    ensures { OnOk result (pieces.new.items
        ≡ pieces.old.items ++ pieces_from from (text_parts text.now)) }
{
    for at in from..from + text.len() {
        pieces.push(Piece {
            from: at,
            to: at + 1,
            kind: Kind::Cluster(1),
        })?;
    }
    Ok(())
}

fn push_text(pieces: &mut Vec<Piece>, from: usize, text: &str) -> Result<(), AllocError>
    requires { from + length text.now < 2 ^ 64 }
    ensures { OnOk result (pieces.new.items
        ≡ pieces.old.items ++ pieces_from from (text_parts text.now)) }
{
    let (front, rest) = text.split_at(plain_len(text));
    push_plain(pieces, from, front)?;
    let mut at = from + front.len();
    let mut clusters = rest.graphemes(true);
    while let Some(cluster) = clusters.next() {
        push_cluster(pieces, at, cluster)?;
        at += cluster.len();
    }
    Ok(())
}

/// The pieces of a line, which may be any bytes. They cover it from its first byte to its last, in
/// order.
///
/// Where no character begins in UTF-8 the byte is an escape; the text between escapes is cut into
/// extended grapheme clusters (UAX #29), each with its width in a terminal, 0 counting as 1 and
/// more than 2 as 2.
pub fn pieces(alloc: Global, line: &[u8]) -> Result<Vec<Piece>, AllocError>
    ensures { IfOk result (λ pieces. pieces.items ≡ pieces_of line.now) }
{
    let mut pieces = Vec::new(alloc);
    let mut from = 0;
    let mut rest = line;
    loop {
        let front = text_at_front(rest);
        push_text(&mut pieces, from, front)?;
        if front.len() == rest.len() {
            return Ok(pieces);
        }
        let at = from + front.len();
        let to = at + 1;
        pieces.push(Piece {
            from: at,
            to,
            kind: Kind::Escape(rest[front.len()]),
        })?;
        let (_, after) = rest.split_at(front.len() + 1);
        from = to;
        rest = after;
    }
}

/// The first pieces of a line, at most so many, where the text at the front of its first bytes has
/// them and two more.
fn front_pieces(alloc: Global, line: &[u8], most: usize) -> Result<Option<Vec<Piece>>, AllocError>
    ensures { IfOk result (λ found. IfSome found (λ pieces. pieces.items
        ≡ take most (pieces_of line.now))) }
{
    let window = most.saturating_mul(4).saturating_add(16);
    if line.len() <= window {
        return Ok(None);
    }
    let (start, _) = line.split_at(window);
    let front = text_at_front(start);
    let mut pieces = pieces(alloc, front.as_bytes())?;
    if pieces.len() < 2 || pieces.len() - 2 < most {
        return Ok(None);
    }
    pieces.truncate(most);
    Ok(Some(pieces))
}

/// The first pieces of a line, at most so many. Of a long line of text no more is looked at than
/// some four bytes for each of them.
pub fn first_pieces(alloc: Global, line: &[u8], most: usize) -> Result<Vec<Piece>, AllocError>
    ensures pieces { IfOk result (λ pieces. pieces.items ≡ take most (pieces_of line.now)) }
    ensures within { IfOk result (λ pieces. All (λ p. (p.from < p.to)
        × (p.to ≤ length line.now)) pieces.items) }
{
    if let Some(pieces) = front_pieces(alloc, line, most)? {
        return Ok(pieces);
    }
    let mut pieces = pieces(alloc, line)?;
    pieces.truncate(most);
    Ok(pieces)
}
