//! The screen of a client that folds the redraw events that it is sent.
ghost use Rattle.std.specs.Prelude.{◌≡◌, ◌↔◌, ◌&&◌, ◌||◌, ◌∷◌, [], ◌^◌, Option, ℕ, IsTrue, is_some, map, IfOk, OnOk};
ghost use Rattle.std.specs.List.{AllByRecursion, list_any};
ghost use Rattle.nv_value.specs.View.{content};
ghost use Rattle.nv_linegrid.specs.Batch.{same_colours};
ghost use Rattle.nv_linegrid.specs.Client.{client_after, client_after_all, first_client};
ghost use Rattle.nv_redraw.specs.Reading.{AreTypedColours, AreTypedEvents, IsColourBelow, IsTypedAttr, IsTypedEvent, IsTypedRun};
ghost use Rattle.nv_redraw.specs.Taking.{client_left};
ghost use Rattle.nv_screen.specs.Sound.{IsSoundScene};
ghost use Rattle.nv_history.specs.UiLaws.{ShowsSceneWhole};
ghost use Rattle.nv_watch.specs.GridClients.{client_by_events, is_flush};
ghost use Rattle.nv_watch.specs.inside.GridsTaken.{TookValues, colours_after_event, taken_both};

use nv_hl::{Attr, Colours};
use nv_linegrid::{Redraw, Run};
use nv_redraw::{Screen, batch_of};
use nv_screen::{Scene, cursor_cell, draw, sound_scene_laws};
use nv_value::Value;
use std::alloc::{AllocError, Global};
use std::marker::Model;

/// What a client shows, with its default colours beside its screen.
#[derive(Drop)]
pub struct Followed {
    screen: Screen,
    // The screen's, which it doesn't lend.
    colours: Option<Colours>,
}

impl Model for Followed {
    ghost use Rattle.std.specs.Prelude.{◌≡◌};
    ghost use Rattle.nv_linegrid.specs.Client.{Client};

    ghost Value = { Client };

    ghost view = { λ f. f.screen };

    ghost invariant = { λ f. f.colours ≡ f.screen.colours };
}

/// What a client was told: whether all of it fits, and whether a flush is among it.
#[derive(Clone, Copy)]
pub struct Taken {
    pub fits: bool,
    pub flushed: bool,
}

impl Taken {
    // What was told, and more.
    fn with(self, more: Taken) -> Taken
        ensures { result ≡ taken_both self more }
    {
        Taken {
            fits: self.fits && more.fits,
            flushed: self.flushed || more.flushed,
        }
    }
}

// ---- what the types of events say of their numbers

fn known_colour(colour: Option<u32>)
    ensures { IsColourBelow (2 ^ 32) colour }
{
    match colour {
        None => {}
        Some(_number) => {}
    }
}

fn known_cterm(colour: Option<u8>)
    ensures { IsColourBelow (2 ^ 8) colour }
{
    match colour {
        None => {}
        Some(_number) => {}
    }
}

fn known_attr(attr: Attr)
    ensures { IsTypedAttr attr }
{
    known_colour(attr.fg);
    known_colour(attr.bg);
    known_colour(attr.sp);
    known_cterm(attr.ctermfg);
    known_cterm(attr.ctermbg);
}

fn known_colours(_colours: Colours)
    ensures { AreTypedColours _colours }
{}

fn known_run(run: &Run)
    ensures { IsTypedRun run.now }
{
    match run {
        Run::Same(_) => {}
        Run::One(_, _) => {}
        Run::Times(_, _, count) => {
            let _count = *count;
        }
    }
}

fn known_runs(runs: &[Run])
    ensures { AllByRecursion IsTypedRun runs.now }
{
    for run in runs {
        known_run(run);
    }
}

fn known_event(event: &Redraw)
    ensures { IsTypedEvent event.now }
{
    match event {
        Redraw::Resize { width, height, .. } => {
            let _size = (*width, *height);
        }
        Redraw::DefaultColors { colours } => known_colours(*colours),
        Redraw::HlAttr { attr, .. } => known_attr(*attr),
        Redraw::Clear { .. } => {}
        Redraw::Scroll {
            top,
            bot,
            left,
            right,
            ..
        } => {
            let _sides = (*top, *bot, *left, *right);
        }
        Redraw::LineOf {
            row,
            col,
            cells,
            ..
        } => {
            let _place = (*row, *col);
            known_runs(cells.as_slice());
        }
        Redraw::Goto { row, col, .. } => {
            let _place = (*row, *col);
        }
        Redraw::Flush => {}
    }
}

// ---- events

fn is_flush(event: &Redraw) -> bool
    ensures { result ≡ is_flush event.now }
{
    matches!(event, Redraw::Flush)
}

// The default colours after an event.
fn colours_after_event(colours: Option<Colours>, event: &Redraw) -> Option<Colours>
    ensures { result ≡ colours_after_event colours event.now }
{
    match event {
        Redraw::DefaultColors { colours } => Some(*colours),
        _ => colours,
    }
}

// Whether the default colours are these.
fn are_colours(told: Option<Colours>, colours: Colours) -> bool
    ensures { result ≡ same_colours told colours }
{
    match told {
        None => false,
        Some(told) => {
            told.fg == colours.fg
                && told.bg == colours.bg
                && told.sp == colours.sp
                && told.cterm_fg == colours.cterm_fg
                && told.cterm_bg == colours.cterm_bg
        }
    }
}

impl Followed {
    /// What a client shows to which nothing was told.
    pub fn new(alloc: Global) -> Followed
        ensures { result ≡ first_client }
    {
        Followed {
            screen: Screen::new(alloc),
            colours: None,
        }
    }

    // Takes an event, where it fits.
    fn take(&mut self, event: &Redraw) -> Result<Taken, AllocError>
        ensures after { OnOk result
            (self.new ≡ client_left self.old (client_after self.old event.now)) }
        ensures fits { IfOk result (λ taken. taken.fits
            ≡ is_some (client_after self.old event.now)) }
        ensures flushed { IfOk result (λ taken. taken.flushed ≡ is_flush event.now) }
    {
        let fits = self.screen.take(event)?;
        self.colours = colours_after_event(self.colours, event);
        Ok(Taken {
            fits,
            flushed: is_flush(event),
        })
    }

    /// Whether it shows a scene as it is drawn, with its colours and its cursor, and no cell is
    /// unknown.
    pub fn shows(&self, alloc: Global, scene: &Scene) -> Result<bool, AllocError>
        requires { IsSoundScene scene.now }
        ensures { IfOk result (λ shows. IsTrue shows ↔ ShowsSceneWhole self.now scene.now) }
    {
        sound_scene_laws();
        let grid = draw(alloc, scene)?;
        let (row, col) = cursor_cell(alloc, scene)?;
        let shown = self.screen.shows(&grid, row, col);
        let coloured = are_colours(self.colours, scene.colours);
        Ok(shown && coloured)
    }
}

// Takes the events that fit.
fn take_events(client: &mut Followed, events: &[Redraw]) -> Result<Taken, AllocError>
    ensures typed { OnOk result (AreTypedEvents events.now) }
    ensures after { OnOk result (client.new ≡ client_by_events client.old events.now) }
    ensures fits { IfOk result (λ taken. taken.fits
        ≡ is_some (client_after_all client.old events.now)) }
    ensures flushed { IfOk result (λ taken. taken.flushed ≡ list_any is_flush events.now) }
{
    let mut taken = Taken {
        fits: true,
        flushed: false,
    };
    for event in events {
        known_event(event);
        taken = taken.with(client.take(event)?);
    }
    Ok(taken)
}

// Takes the events that fit of those that a value tells.
fn take_value(client: &mut Followed, alloc: Global, value: &Value) -> Result<Taken, AllocError>
    ensures { IfOk result (TookValues (content value.now ∷ []) client.old client.new) }
{
    match batch_of(alloc, value)? {
        None => Ok(Taken {
            fits: false,
            flushed: false,
        }),
        Some(events) => {
            let taken = take_events(client, events.as_slice())?;
            Ok(taken)
        }
    }
}

/// Takes the events that fit of those that values tell.
pub fn take_values(
    client: &mut Followed,
    alloc: Global,
    values: &[Value],
) -> Result<Taken, AllocError>
    ensures { IfOk result (TookValues (map content values.now) client.old client.new) }
{
    let mut taken = Taken {
        fits: true,
        flushed: false,
    };
    for value in values {
        taken = taken.with(take_value(client, alloc, value)?);
    }
    Ok(taken)
}
