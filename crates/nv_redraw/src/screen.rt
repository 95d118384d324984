//! The screen of a client that takes redraw events.
ghost use Rattle.std.specs.Prelude.{◌≡◌, ◌↔◌, ◌&&◌, IsTrue, is_some, IfOk, OnOk, OnErr};
ghost use Rattle.nv_linegrid.specs.declared.event.Redraw.TheVariants.{Resize, Clear, Goto};
ghost use Rattle.nv_linegrid.specs.Client.{first_client, client_after, is_in_size, is_rectangle_in};
ghost use Rattle.nv_linegrid.specs.Batch.{is_size, is_place};
ghost use Rattle.nv_redraw.specs.Taking.{client_left, ShowsGrid};
ghost use Rattle.nv_redraw.specs.inside.Rectangles.{scroll_by};
ghost use Rattle.nv_redraw.specs.inside.Taking.{rows_show};

use crate::lines::{Rectangle, blank_rows, put_line, rows_show, scrolled_rows, unknown_rows};
use crate::shown::ShownRow;
use nv_hl::{Attr, Colours, Grid};
use nv_linegrid::Redraw;
use std::alloc::{AllocError, Global};
use std::marker::Model;

/// What a client shows by the events that it took (help: ui-linegrid). A cell is unknown until an
/// event tells it.
#[derive(Drop)]
pub struct Screen {
    size: Option<(u32, u32)>,
    rows: Vec<ShownRow>,
    // The newest first.
    table: Vec<(u64, Attr)>,
    colours: Option<Colours>,
    cursor: Option<(u32, u32)>,
}

impl Model for Screen {
    ghost use Rattle.std.specs.Prelude.{◌++◌};
    ghost use Rattle.nv_linegrid.specs.Client.{Client, first_table};

    ghost Value = { Client };

    ghost view = { λ s. record {
      size = s.size;
      rows = s.rows.items;
      table = s.table.items ++ first_table;
      colours = s.colours;
      cursor = s.cursor;
    } };
}

impl Screen {
    /// The screen of a client to which nothing was told: without a size.
    pub fn new(alloc: Global) -> Screen
        ensures { result ≡ first_client }
    {
        Screen {
            size: None,
            rows: Vec::new(alloc),
            table: Vec::new(alloc),
            colours: None,
            cursor: None,
        }
    }

    /// Takes an event, and tells whether it fits: whether it leaves neither grid 1 nor its size,
    /// and each id that it names stands for an attribute. Where it doesn't, and after an error,
    /// the screen is as it was.
    pub fn take(&mut self, event: &Redraw) -> Result<bool, AllocError>
        ensures fits { IfOk result (λ fits. fits ≡ is_some (client_after self.old event.now)) }
        ensures after { OnOk result
            (self.new ≡ client_left self.old (client_after self.old event.now)) }
        ensures err { OnErr result (self.new ≡ self.old) }
    {
        match event {
            Redraw::Resize {
                grid,
                width,
                height,
            } => self.resize(*grid, *width, *height),
            Redraw::DefaultColors { colours } => {
                self.colours = Some(*colours);
                Ok(true)
            }
            Redraw::HlAttr { id, attr } => {
                self.table.insert(0, (*id, *attr))?;
                Ok(true)
            }
            Redraw::Clear { grid } => self.clear(*grid),
            Redraw::Scroll {
                grid,
                top,
                bot,
                left,
                right,
                rows,
            } => self.scroll(
                *grid,
                Rectangle {
                    top: *top,
                    bot: *bot,
                    left: *left,
                    right: *right,
                    rows: *rows,
                },
            ),
            Redraw::LineOf {
                grid,
                row,
                col,
                cells,
            } => {
                if *grid != 1 {
                    return Ok(false);
                }
                let alloc = *self.table.allocator();
                let table = self.table.as_slice();
                put_line(&mut self.rows, alloc, table, *row, *col, cells.as_slice())
            }
            Redraw::Goto { grid, row, col } => Ok(self.go_to(*grid, *row, *col)),
            Redraw::Flush => Ok(true),
        }
    }

    fn resize(&mut self, grid: i64, width: u32, height: u32) -> Result<bool, AllocError>
        ensures fits { IfOk result (λ fits. fits
            ≡ is_some (client_after self.old (Resize grid width height))) }
        ensures after { OnOk result (self.new
            ≡ client_left self.old (client_after self.old (Resize grid width height))) }
        ensures err { OnErr result (self.new ≡ self.old) }
    {
        if grid != 1 {
            return Ok(false);
        }
        self.rows = unknown_rows(*self.rows.allocator(), width, height)?;
        self.size = Some((width, height));
        self.cursor = None;
        Ok(true)
    }

    fn clear(&mut self, grid: i64) -> Result<bool, AllocError>
        ensures fits { IfOk result (λ fits. fits ≡ is_some (client_after self.old (Clear grid))) }
        ensures after { OnOk result
            (self.new ≡ client_left self.old (client_after self.old (Clear grid))) }
        ensures err { OnErr result (self.new ≡ self.old) }
    {
        if grid != 1 || self.size.is_none() {
            return Ok(false);
        }
        self.rows = blank_rows(*self.rows.allocator(), self.rows.as_slice())?;
        Ok(true)
    }

    // Whether a rectangle lies in the size.
    fn has_inside(&self, rectangle: Rectangle) -> bool
        ensures { result ≡ is_rectangle_in self.now.size rectangle.top rectangle.bot rectangle.left
            rectangle.right }
    {
        match self.size {
            None => false,
            Some((width, height)) => {
                rectangle.top < rectangle.bot
                    && rectangle.bot <= height
                    && rectangle.left < rectangle.right
                    && rectangle.right <= width
            }
        }
    }

    fn scroll(&mut self, grid: i64, rectangle: Rectangle) -> Result<bool, AllocError>
        ensures fits { IfOk result (λ fits. fits
            ≡ is_some (client_after self.old (scroll_by grid rectangle))) }
        ensures after { OnOk result (self.new
            ≡ client_left self.old (client_after self.old (scroll_by grid rectangle))) }
        ensures err { OnErr result (self.new ≡ self.old) }
    {
        if grid != 1 || !self.has_inside(rectangle) {
            return Ok(false);
        }
        self.rows = scrolled_rows(*self.rows.allocator(), self.rows.as_slice(), rectangle)?;
        Ok(true)
    }

    fn go_to(&mut self, grid: i64, row: u32, col: u32) -> bool
        ensures fits { result ≡ is_some (client_after self.old (Goto grid row col)) }
        ensures after { self.new
            ≡ client_left self.old (client_after self.old (Goto grid row col)) }
    {
        if grid != 1 || !self.has_cell(row, col) {
            return false;
        }
        self.cursor = Some((row, col));
        true
    }

    fn has_cell(&self, row: u32, col: u32) -> bool
        ensures { result ≡ is_in_size self.now.size row col }
    {
        match self.size {
            None => false,
            Some((width, height)) => row < height && col < width,
        }
    }

    fn has_size(&self, width: u32, height: u32) -> bool
        ensures { result ≡ is_size self.now.size width height }
    {
        match self.size {
            None => false,
            Some(size) => size.0 == width && size.1 == height,
        }
    }

    fn has_cursor(&self, row: u32, col: u32) -> bool
        ensures { result ≡ is_place self.now.cursor (row, col) }
    {
        match self.cursor {
            None => false,
            Some(place) => place.0 == row && place.1 == col,
        }
    }

    fn shows_all(&self, grid: &Grid, row: u32, col: u32) -> bool
        ensures { result ≡ (is_size self.now.size grid.now.width grid.now.height
            && is_place self.now.cursor (row, col)
            && rows_show self.now.table self.now.rows grid.now.rows) }
    {
        self.has_size(grid.width(), grid.height())
            && self.has_cursor(row, col)
            && rows_show(self.table.as_slice(), self.rows.as_slice(), grid.rows())
    }

    /// Whether no cell is unknown, the cells are those of a grid, and the cursor stands at a row
    /// and a column, counted from 0. The default colours aren't compared.
    pub fn shows(&self, grid: &Grid, row: u32, col: u32) -> bool
        ensures { IsTrue result ↔ ShowsGrid self.now grid.now (row, col) }
    {
        self.shows_all(grid, row, col)
    }
}
