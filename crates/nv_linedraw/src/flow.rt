//! Cells as they are laid in rows.

ghost use Rattle.nv_hl.specs.Attributes.{combined};
ghost use Rattle.nv_hl.specs.Cells.{cell_of, space};
ghost use Rattle.nv_linedraw.specs.LineCells.{atom_cells, atom_col, attr_at, attr_over, cells_from_column, col_after, escape_text, filler_of, hex_digit, span_holds, kind_atoms, single, ones, double, rest_attr, rest_over, round, stop_after};
ghost use Rattle.nv_linedraw.specs.inside.DrawnCells.{drawn_piece};
ghost use Rattle.std.specs.Prelude.{◌≡◌, ◌<◌, ◌≤◌, ◌-◌, ◌++◌, ◌∷◌, ◌&&◌, [], IfOk, OnOk, length, replicate, slice_range};

use crate::looks::{Looks, Span};
use nv_hl::{Attr, Cell, combine};
use nv_text::{Kind, Piece};
use std::alloc::{AllocError, Global};

/// A line that is drawn, and how.
#[derive(Clone, Copy)]
pub struct Drawn<'a> {
    pub line: &'a [u8],
    pub spans: &'a [Span],
    pub looks: &'a Looks,
    /// Columns of a row.
    pub width: u32,
    pub tabstop: u32,
}

/// The cells laid so far, and the column behind them.
#[derive(Drop)]
pub struct Flow {
    pub cells: Vec<Cell>,
    pub col: u32,
}

/// The counter once it has gone on, round at `n`.
fn round(n: u32, k: u32) -> u32
    requires { k < n }
    ensures value { result ≡ round n k }
    ensures within { result < n }
{
    if k + 1 == n { 0 } else { k + 1 }
}

fn span_holds(span: &Span, offset: usize) -> bool
    ensures { result ≡ span_holds span.now offset }
{
    span.from as usize <= offset && offset < span.to as usize
}

/// The attribute of a byte.
fn attr_at(spans: &[Span], offset: usize) -> Attr
    ensures { result ≡ attr_at spans.now offset }
{
    let mut attr = Attr::EMPTY;
    for span in spans {
        if span_holds(span, offset) {
            attr = combine(attr, span.attr);
        }
    }
    attr
}

/// The attribute of what follows a line of this length in its last row.
pub fn rest_attr(spans: &[Span], len: usize) -> Attr
    ensures { result ≡ rest_attr spans.now len }
{
    let mut low = Attr::EMPTY;
    for span in spans {
        if span.eol && span_holds(span, len) {
            low = combine(low, span.attr);
        }
    }
    low
}

fn hex_digit(n: u8) -> u8
    requires { n < 16 }
    ensures { result ≡ hex_digit n }
{
    if n < 10 { b'0' + n } else { b'a' - 10 + n }
}

fn escape_text(byte: u8) -> [u8; 4]
    ensures { result ≡ escape_text byte }
{
    [b'<', hex_digit(byte / 16), hex_digit(byte % 16), b'>']
}

/// How many cells of the line stand behind the last tab stop once a piece more stands there.
pub fn stop_after(tabstop: u32, stop: u32, kind: Kind) -> u32
    requires { stop < tabstop }
    ensures value { result ≡ stop_after tabstop stop kind }
    ensures within { result < tabstop }
{
    match kind {
        Kind::Tab => 0,
        Kind::Control(_) | Kind::Cluster(2) => round(tabstop, round(tabstop, stop)),
        Kind::Escape(_) => {
            let half = round(tabstop, round(tabstop, stop));
            round(tabstop, round(tabstop, half))
        }
        Kind::Cluster(_) => round(tabstop, stop),
    }
}

/// The attribute of a control or an escape.
fn special_attr(d: &Drawn, attr: Attr) -> Attr
    ensures { result ≡ combined d.now.looks.now.special attr }
{
    combine(d.looks.special, attr)
}

/// The cell of a cluster, most often one byte.
fn cluster_cell(alloc: Global, text: &[u8], attr: Attr) -> Result<Cell, AllocError>
    ensures { IfOk result (λ c. c ≡ cell_of text.now attr) }
{
    if let [byte] = text {
        return Ok(Cell::from_byte(*byte, attr));
    }
    Cell::new(alloc, text, attr)
}

/// The cell that stands where a pair doesn't fit.
fn filler(d: &Drawn) -> Cell
    ensures { result ≡ filler_of d.now.looks.now }
{
    Cell::from_byte(b'>', d.looks.nontext)
}

impl Flow {
    /// Puts a cell by itself.
    fn put_one(&mut self, width: u32, cell: Cell) -> Result<(), AllocError>
        requires within { self.old.col < width }
        ensures cells { OnOk result (self.new.cells.items ≡ self.old.cells.items ++ cell ∷ []) }
        ensures col { self.new.col ≡ round width self.old.col }
        ensures within { self.new.col < width }
    {
        self.col = round(width, self.col);
        self.cells.push(cell)?;
        Ok(())
    }

    /// Puts a pair of cells that shows a wide cluster.
    fn put_pair(
        &mut self,
        alloc: Global,
        d: &Drawn,
        text: &[u8],
        attr: Attr,
    ) -> Result<(), AllocError>
        requires within { self.old.col < d.now.width }
        ensures cells { OnOk result (self.new.cells.items
            ≡ self.old.cells.items ++ atom_cells d.now.width
            (filler_of d.now.looks.now) self.old.col (double (cell_of text.now attr))) }
        ensures col { OnOk result (self.new.col ≡ atom_col d.now.width self.old.col
            (double (cell_of text.now attr))) }
        ensures within { self.new.col < d.now.width }
    {
        if d.width == 1 {
            self.cells.push(filler(d))?;
            self.col = 0;
            return Ok(());
        }
        if self.col + 1 == d.width {
            self.cells.push(filler(d))?;
            self.col = 0;
        }
        self.put_one(d.width, Cell::new(alloc, text, attr)?)?;
        self.put_one(d.width, Cell::right_half(attr))
    }

    /// Puts each byte as a cell.
    fn put_bytes(&mut self, d: &Drawn, bytes: &[u8], attr: Attr) -> Result<(), AllocError>
        requires within { self.old.col < d.now.width }
        ensures cells { OnOk result (self.new.cells.items
            ≡ self.old.cells.items ++ cells_from_column d.now.width
            (filler_of d.now.looks.now) self.old.col (ones bytes.now attr)) }
        ensures col { OnOk result (self.new.col ≡ col_after d.now.width self.old.col
            (ones bytes.now attr)) }
        ensures within { self.new.col < d.now.width }
    {
        for byte in bytes {
            self.put_one(d.width, Cell::from_byte(*byte, attr))?;
        }
        Ok(())
    }

    /// Puts spaces.
    fn put_spaces(&mut self, d: &Drawn, n: u32, attr: Attr) -> Result<(), AllocError>
        requires within { self.old.col < d.now.width }
        ensures cells { OnOk result (self.new.cells.items
            ≡ self.old.cells.items ++ cells_from_column d.now.width
            (filler_of d.now.looks.now) self.old.col (replicate n (single (space attr)))) }
        ensures col { OnOk result (self.new.col ≡ col_after d.now.width self.old.col
            (replicate n (single (space attr)))) }
        ensures within { self.new.col < d.now.width }
    {
        for _ in 0..n {
            self.put_one(d.width, Cell::space(attr))?;
        }
        Ok(())
    }

    /// Puts a piece. `stop` cells of the line stand behind the last tab stop; gives how many do
    /// then.
    pub fn put_piece(
        &mut self,
        alloc: Global,
        d: &Drawn,
        piece: Piece,
        stop: u32,
    ) -> Result<u32, AllocError>
        requires within { self.old.col < d.now.width }
        requires stop { stop < d.now.tabstop }
        requires order { piece.from ≤ piece.to }
        requires inside { piece.to ≤ length d.now.line.now }
        ensures cells { OnOk result (self.new.cells.items
            ≡ self.old.cells.items ++ cells_from_column d.now.width
            (filler_of d.now.looks.now) self.old.col
            (drawn_piece d.now stop piece)) }
        ensures col { OnOk result (self.new.col ≡ col_after d.now.width self.old.col
            (drawn_piece d.now stop piece)) }
        ensures within { self.new.col < d.now.width }
        ensures stop { IfOk result (λ s. s ≡ stop_after d.now.tabstop stop piece.kind) }
        ensures stop_within { IfOk result (λ s. s < d.now.tabstop) }
    {
        let attr = attr_at(d.spans, piece.from);
        match piece.kind {
            Kind::Tab => {
                self.put_spaces(d, d.tabstop - stop, attr)?;
                Ok(stop_after(d.tabstop, stop, piece.kind))
            }
            Kind::Control(byte) => {
                self.put_bytes(d, &[b'^', byte ^ 0x40], special_attr(d, attr))?;
                Ok(stop_after(d.tabstop, stop, piece.kind))
            }
            Kind::Escape(byte) => {
                self.put_bytes(d, &escape_text(byte), special_attr(d, attr))?;
                Ok(stop_after(d.tabstop, stop, piece.kind))
            }
            Kind::Cluster(2) => {
                self.put_pair(alloc, d, &d.line[piece.from..piece.to], attr)?;
                Ok(stop_after(d.tabstop, stop, piece.kind))
            }
            Kind::Cluster(_) => {
                let cell = cluster_cell(alloc, &d.line[piece.from..piece.to], attr)?;
                self.put_one(d.width, cell)?;
                Ok(stop_after(d.tabstop, stop, piece.kind))
            }
        }
    }
}
