//! The cells of a text.
ghost use Rattle.std.specs.Prelude.{◌≡◌, ◌≤◌, ◌<◌, ◌*◌, ◌^◌, length};
ghost use Rattle.nv_text.specs.Pieces.{kind_cells, cluster_parts, text_parts, parts_cells, strwidth_of};

use crate::kinds::{cluster_kind, plain_len, text_at_front};
use crate::piece::Kind;
use unicode_segmentation::UnicodeSegmentation;

fn kind_cells(kind: Kind) -> u64
    ensures { result ≡ kind_cells kind }
{
    match kind {
        Kind::Tab | Kind::Control(_) => 1,
        Kind::Escape(_) => 4,
        Kind::Cluster(width) => width as u64,
    }
}

fn cluster_width(cluster: &str) -> u64
    ensures { result ≡ parts_cells (cluster_parts cluster.now) }
{
    if cluster == "\r\n" {
        2
    } else {
        kind_cells(cluster_kind(cluster))
    }
}

fn text_width(text: &str) -> u64
    requires { length text.now < 2 ^ 62 }
    ensures value { result ≡ parts_cells (text_parts text.now) }
    ensures bound { result ≤ 4 * length text.now }
{
    let (front, rest) = text.split_at(plain_len(text));
    let mut cells = front.len() as u64;
    let mut clusters = rest.graphemes(true);
    while let Some(cluster) = clusters.next() {
        cells += cluster_width(cluster);
    }
    cells
}

/// The cells that a text takes on a line by itself: 1 for a Tab or a control, 4 for an escape, and
/// the width of each cluster (help: nvim_strwidth()).
pub fn strwidth(text: &[u8]) -> u64
    requires { length text.now < 2 ^ 62 }
    ensures { result ≡ strwidth_of text.now }
{
    let mut cells = 0;
    let mut rest = text;
    loop {
        let front = text_at_front(rest);
        cells += text_width(front);
        if front.len() == rest.len() {
            return cells;
        }
        let (_, after) = rest.split_at(front.len() + 1);
        cells += 4;
        rest = after;
    }
}
