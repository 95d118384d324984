//! The text at the front of bytes, and what its clusters are.
ghost use Rattle.std.specs.Prelude.{◌≡◌, ◌≤◌, ◌++◌, true, take, drop, length, slice_index};
ghost use Rattle.std.specs.Int.{is_in_range};
ghost use Rattle.std.specs.List.{list_all, prefix_len};
ghost use Rattle.std.specs.Str.{IsCharBoundary};
ghost use Rattle.std.specs.Str.Lossy.{utf8_valid_len};
ghost use Rattle.nv_text.specs.Pieces.{cluster_cells, cluster_kind, control_kind, is_control, is_late_control, text_parts};

use crate::piece::Kind;
use unicode_width::UnicodeWidthStr;

/// The longest front of the bytes that is UTF-8.
pub(crate) fn text_at_front(bytes: &[u8]) -> &str
    ensures value { result.now ≡ take (utf8_valid_len bytes.now) bytes.now }
    ensures len { length result.now ≡ utf8_valid_len bytes.now }
    ensures within { length result.now ≤ length bytes.now }
{
    match bytes.utf8_chunks().next() {
        Some(chunk) => chunk.valid(),
        None => "",
    }
}

// How many bytes at the front are printable characters of ASCII.
fn printable_len(text: &str) -> usize
    ensures { result ≡ prefix_len (is_in_range 0x20 0x7E) text.now }
{
    for (at, byte) in text.as_bytes().iter().enumerate() {
        if !(0x20..=0x7E).contains(byte) {
            return at;
        }
    }
    text.len()
}

/// How many printable characters of ASCII at the front are clusters by themselves: all of them
/// where nothing else follows, and else all but the last, which what follows may join.
pub(crate) fn plain_len(text: &str) -> usize
    ensures plain { list_all (is_in_range 0x20 0x7E) (take result text.now) ≡ true }
    ensures boundary { IsCharBoundary text.now result }
    ensures cut { text_parts text.now
        ≡ text_parts (take result text.now) ++ text_parts (drop result text.now) }
{
    let printable = printable_len(text);
    if printable == text.len() {
        printable
    } else {
        printable.saturating_sub(1)
    }
}

fn is_control(cluster: &[u8]) -> bool
    ensures { result ≡ is_control cluster.now }
{
    cluster.len() == 1 && (cluster[0] < 0x20 || cluster[0] == 0x7F)
}

fn is_late_control(cluster: &[u8]) -> bool
    ensures { result ≡ is_late_control cluster.now }
{
    cluster.len() == 2 && cluster[0] == 0xC2 && cluster[1] < 0xA0
}

fn control_kind(byte: u8) -> Kind
    ensures { result ≡ control_kind byte }
{
    if byte == b'\t' {
        Kind::Tab
    } else {
        Kind::Control(byte)
    }
}

fn cluster_cells(cluster: &str) -> u8
    ensures { result ≡ cluster_cells cluster.now }
{
    if cluster.width() > 1 { 2 } else { 1 }
}

/// What a cluster is that isn't CR LF.
pub(crate) fn cluster_kind(cluster: &str) -> Kind
    ensures { result ≡ cluster_kind cluster.now }
{
    let bytes = cluster.as_bytes();
    if is_control(bytes) {
        control_kind(bytes[0])
    } else if is_late_control(bytes) {
        Kind::Escape(bytes[1])
    } else {
        Kind::Cluster(cluster_cells(cluster))
    }
}
