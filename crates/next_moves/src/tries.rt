//! The tries one by one, in their order; those of exchanges and slides are in `trading`.
ghost use Rattle.std.specs.Prelude.{◌≡◌, ◌<◌, ◌≤◌, ◌+◌, ◌*◌, ◌∷◌, ◌++◌, [], length, map};
ghost use Rattle.grid_core.specs.Corners.{corners};
ghost use Rattle.grid_core.specs.Diagram.{IsGrid, size};
ghost use Rattle.grid_core.specs.Parts.{column_span, column_lows, column_highs};
ghost use Rattle.grid_moves.specs.Step.{Step};
ghost use Rattle.grid_keys.specs.Translation.{translate};
ghost use Rattle.grid_canon.specs.ShortTrades.{trades_of};
ghost use Rattle.next_moves.specs.declared.offers.TheConstants.{MAX_OFFERS};
ghost use Rattle.next_moves.specs.Tries.{block_tries, all_block_tries, try_stabilisation, all_stabilisation_tries};
ghost use Rattle.grid_moves.specs.declared.step.Move.TheVariants.{Destabilise};
ghost use Rattle.next_moves.specs.Blocks.{row_of_both, block_try_at, block_tries_at};
ghost use Rattle.next_moves.specs.Extends.{ExtendsBy, IsShortOf};

use crate::links::{Link, Offer};
use crate::offer_list::OfferList;
use crate::side_by_side::{first_of_pair, next, shift_before};
use crate::spans::Spans;
use grid_canon::{MAX_SHORT_SIZE, ShortGrid, ShortTrades, canonical_key};
use grid_core::{Corner, Grid, Kind};
use grid_keys::{LeastKey, translate};
use grid_moves::{Move, apply_in_place, narrowing_of, widening_of};
use std::marker::Model;

/// A grid whose moves are tried, and the cap within which. With it comes the same grid as a short one, where a short one has room for one
/// more column. Contracts see the grid and the cap.
#[derive(Drop)]
pub(crate) struct Tries<'a> {
    grid: &'a Grid,
    cap: u8,
    short: Option<ShortGrid>,
}

impl<'a> Model for Tries<'a> {
    ghost use Rattle.next_moves.specs.Extends.{Tried, IsPrepared};

    ghost Value = { Tried };

    ghost view = { λ t. record { diagram = t.grid.now; cap = t.cap } };

    ghost invariant = { λ t. IsPrepared t.grid.now t.cap t.short };
}

impl<'a> Tries<'a> {
    /// The tries on a grid within a cap, which is at least its size.
    pub(crate) fn on(grid: &'a Grid, cap: u8) -> Tries<'a>
        requires { size grid.now ≤ cap }
        ensures { result ≡ record { diagram = grid.now; cap = cap } }
    {
        Tries {
            grid,
            cap,
            short: short_of(grid),
        }
    }

    /// The size of the grid.
    pub(crate) fn size(&self) -> u8
        ensures size { result ≡ size self.now.diagram }
        ensures grid { IsGrid self.now.diagram }
        ensures within { size self.now.diagram ≤ self.now.cap }
    {
        self.grid.size()
    }

    /// The cap.
    fn cap(&self) -> u8
        ensures { result ≡ self.now.cap }
    {
        self.cap
    }

    /// The short grid, where there is one.
    pub(crate) fn short(&self) -> &Option<ShortGrid>
        ensures { IsShortOf self.now.diagram result.now }
    {
        &self.short
    }

    /// The grid.
    pub(crate) fn grid(&self) -> &Grid
        ensures { result.now ≡ self.now.diagram }
    {
        self.grid
    }

    /// The translate by these shifts, each of which is none or by 1.
    fn translated(&self, before: (u8, u8)) -> Grid
        requires columns { before.0 ≤ 1 }
        requires rows { before.1 ≤ 1 }
        ensures { result ≡ translate self.now.diagram before.0 before.1 }
    {
        let _size = self.grid.size();
        if before.0 == 0 && before.1 == 0 {
            self.grid.copy()
        } else {
            translate(self.grid, before.0, before.1)
        }
    }

    /// Appends the offer of one move on a translate, where it is legal within the cap.
    pub(crate) fn try_move(&self, list: &mut OfferList, before: (u8, u8), step: Move)
        requires columns { before.0 ≤ 1 }
        requires rows { before.1 ≤ 1 }
        requires room { length list.old.items < MAX_OFFERS }
        ensures { ExtendsBy 1 self.now (record { before = before; step = step } ∷ []) list.old list.new }
    {
        let _size = self.size();
        let mut moved = self.translated(before);
        match apply_in_place(&mut moved, step) {
            Ok(()) => {
                if moved.size() <= self.cap() {
                    list.push(offer_of(canonical_key(&moved), before, step));
                }
            }
            Err(_) => {}
        }
    }

    /// Appends the offer of one move on a translate, by the short grid to which it leads.
    pub(crate) fn push_moved(
        &self,
        list: &mut OfferList,
        moved: &ShortGrid,
        before: (u8, u8),
        step: Move,
    )
        requires columns { before.0 ≤ 1 }
        requires rows { before.1 ≤ 1 }
        requires step { Step (translate self.now.diagram before.0 before.1) step moved.now }
        requires cap { size moved.now ≤ self.now.cap }
        requires room { length list.old.items < MAX_OFFERS }
        ensures { ExtendsBy 1 self.now (record { before = before; step = step } ∷ []) list.old list.new }
    {
        let _size = self.size();
        list.push(offer_of(moved.canonical_key(), before, step));
    }

    /// Appends the destabilisations, by column and then by row.
    pub(crate) fn destabilise(&self, list: &mut OfferList)
        requires room { length list.old.items + 2 * size self.now.diagram ≤ MAX_OFFERS }
        ensures { ExtendsBy (2 * size self.now.diagram) self.now (all_block_tries (size self.now.diagram)) list.old list.new }
    {
        let _size = self.size();
        match self.short() {
            Some(short) => self.destabilise_short(list, &short.column_trades()),
            None => self.destabilise_long(list),
        }
    }

    /// Appends them by the trades of the short grid.
    fn destabilise_short(&self, list: &mut OfferList, trades: &ShortTrades)
        requires trades { trades.now ≡ trades_of (size self.now.diagram) (column_span self.now.diagram) }
        requires room { length list.old.items + 2 * size self.now.diagram ≤ MAX_OFFERS }
        ensures { ExtendsBy (2 * size self.now.diagram) self.now (all_block_tries (size self.now.diagram)) list.old list.new }
    {
        for column in 0..self.size() {
            self.destabilise_short_column(list, trades, column);
        }
    }

    /// Appends those at a column and the next one, by the trades of the short grid: where a block of them has three marks, the two slide.
    fn destabilise_short_column(&self, list: &mut OfferList, trades: &ShortTrades, c: u8)
        requires column { c < size self.now.diagram }
        requires trades { trades.now ≡ trades_of (size self.now.diagram) (column_span self.now.diagram) }
        requires room { length list.old.items + 2 ≤ MAX_OFFERS }
        ensures { ExtendsBy 2 self.now (block_tries (size self.now.diagram) c) list.old list.new }
    {
        let _size = self.size();
        if trades.may_slide(c) {
            self.destabilise_column(list, c);
        }
    }

    /// Appends them where there is no short grid, by the spans of all columns.
    fn destabilise_long(&self, list: &mut OfferList)
        requires room { length list.old.items + 2 * size self.now.diagram ≤ MAX_OFFERS }
        ensures { ExtendsBy (2 * size self.now.diagram) self.now (all_block_tries (size self.now.diagram)) list.old list.new }
    {
        let spans = Spans::of_columns(self.grid());
        for c in 0..self.size() {
            self.destabilise_long_column(list, &spans, c);
        }
    }

    /// Appends those at a column and the next one, by the spans of the columns, likewise.
    fn destabilise_long_column(&self, list: &mut OfferList, spans: &Spans, c: u8)
        requires column { c < size self.now.diagram }
        requires lows { spans.now.lows.items ≡ column_lows self.now.diagram }
        requires highs { spans.now.highs.items ≡ column_highs self.now.diagram }
        requires room { length list.old.items + 2 ≤ MAX_OFFERS }
        ensures { ExtendsBy 2 self.now (block_tries (size self.now.diagram) c) list.old list.new }
    {
        if spans.touch_once(c, self.size()) {
            self.destabilise_column(list, c);
        }
    }

    /// Appends the destabilisations at a column and the next one, by row. A block with three marks has both marks of one of its columns:
    /// no other is tried.
    fn destabilise_column(&self, list: &mut OfferList, c: u8)
        requires column { c < size self.now.diagram }
        requires room { length list.old.items + 2 ≤ MAX_OFFERS }
        ensures { ExtendsBy 2 self.now (block_tries (size self.now.diagram) c) list.old list.new }
    {
        let near = row_of_both(self.grid(), c);
        let far = row_of_both(self.grid(), next(c, self.size()));
        if near < far {
            self.try_blocks(list, c, near, far);
        } else if far < near {
            self.try_blocks(list, c, far, near);
        } else {
            self.try_block(list, c, near);
        }
    }

    /// Appends the destabilisations at the blocks of two rows, where these are rows.
    fn try_blocks(&self, list: &mut OfferList, c: u8, first: u8, second: u8)
        requires column { c < size self.now.diagram }
        requires room { length list.old.items + 2 ≤ MAX_OFFERS }
        ensures { ExtendsBy 2 self.now (block_tries_at (size self.now.diagram) c first second) list.old list.new }
    {
        self.try_block(list, c, first);
        self.try_block(list, c, second);
    }

    /// Appends the destabilisation at the block of one row, where that is a row.
    fn try_block(&self, list: &mut OfferList, c: u8, r: u8)
        requires column { c < size self.now.diagram }
        requires room { length list.old.items < MAX_OFFERS }
        ensures { ExtendsBy 1 self.now (block_try_at (size self.now.diagram) c r) list.old list.new }
    {
        let size = self.size();
        if r < size {
            let before = (shift_before(c, size), shift_before(r, size));
            self.destabilise_at(list, before, c - before.0, r - before.1);
        }
    }

    /// Appends the destabilisation at a column and a row of a translate, where it is legal.
    fn destabilise_at(&self, list: &mut OfferList, before: (u8, u8), column: u8, row: u8)
        requires columns { before.0 ≤ 1 }
        requires rows { before.1 ≤ 1 }
        requires room { length list.old.items < MAX_OFFERS }
        ensures { ExtendsBy 1 self.now (record { before = before; step = Destabilise column row } ∷ []) list.old list.new }
    {
        match self.short() {
            Some(short) => self.push_narrowed(list, short, before, column, row),
            None => self.try_move(list, before, Move::Destabilise { column, row }),
        }
    }

    /// Appends the offer of one destabilisation, where it is legal, which is made on the short grid.
    fn push_narrowed(
        &self,
        list: &mut OfferList,
        short: &ShortGrid,
        before: (u8, u8),
        column: u8,
        row: u8,
    )
        requires short { short.now ≡ self.now.diagram }
        requires columns { before.0 ≤ 1 }
        requires rows { before.1 ≤ 1 }
        requires room { length list.old.items < MAX_OFFERS }
        ensures { ExtendsBy 1 self.now (record { before = before; step = Destabilise column row } ∷ []) list.old list.new }
    {
        let _size = self.size();
        match narrowing_of(&self.translated(before), column, row) {
            Ok(narrowing) => {
                let moved = short.translated(before.0, before.1).narrowed(narrowing);
                self.push_moved(list, &moved, before, Move::Destabilise { column, row });
            }
            Err(_) => {}
        }
    }

    /// Appends the stabilisations, by column, kind and corner: none where the size is the cap.
    pub(crate) fn stabilise(&self, list: &mut OfferList)
        requires room { length list.old.items + 8 * size self.now.diagram ≤ MAX_OFFERS }
        ensures { ExtendsBy (8 * size self.now.diagram) self.now (all_stabilisation_tries (size self.now.diagram)) list.old list.new }
    {
        let size = self.size();
        if size >= self.cap() {
            return;
        }
        for c in 0..size {
            self.stabilise_mark(list, c, Kind::Cross);
            self.stabilise_mark(list, c, Kind::Ring);
        }
    }

    /// Appends the four stabilisations at the mark of a kind in a column.
    fn stabilise_mark(&self, list: &mut OfferList, column: u8, kind: Kind)
        requires column { column < size self.now.diagram }
        requires cap { size self.now.diagram < self.now.cap }
        requires room { length list.old.items + 4 ≤ MAX_OFFERS }
        ensures { ExtendsBy 4 self.now (map (try_stabilisation column kind) corners) list.old list.new }
    {
        for corner in Corner::ALL {
            let at = Stabilisation {
                column,
                kind,
                corner,
            };
            self.stabilise_at(list, at);
        }
    }

    /// Appends one stabilisation.
    fn stabilise_at(&self, list: &mut OfferList, at: Stabilisation)
        requires column { at.column < size self.now.diagram }
        requires cap { size self.now.diagram < self.now.cap }
        requires room { length list.old.items < MAX_OFFERS }
        ensures { ExtendsBy 1 self.now (try_stabilisation at.column at.kind at.corner ∷ []) list.old list.new }
    {
        match self.short() {
            Some(short) => self.push_stabilised(list, short, at),
            None => self.try_move(list, (0, 0), at.step()),
        }
    }

    /// Appends the offer of one stabilisation, which is made on the short grid.
    fn push_stabilised(&self, list: &mut OfferList, short: &ShortGrid, at: Stabilisation)
        requires column { at.column < size self.now.diagram }
        requires cap { size self.now.diagram < self.now.cap }
        requires short { short.now ≡ self.now.diagram }
        requires few { size self.now.diagram < MAX_SHORT_SIZE }
        requires room { length list.old.items < MAX_OFFERS }
        ensures { ExtendsBy 1 self.now (try_stabilisation at.column at.kind at.corner ∷ []) list.old list.new }
    {
        let _size = self.size();
        let widening = widening_of(self.grid(), at.column, at.kind, at.corner);
        self.push_moved(list, &short.widened(widening), (0, 0), at.step());
    }
}

/// The offer that the shifts and the step lead to, by what was found of their result.
fn offer_of(found: LeastKey, before: (u8, u8), step: Move) -> Offer
    ensures { result ≡ record { key = found.key; link = record { before = before; step = step; after = (found.columns, found.rows) } } }
{
    Offer {
        key: found.key,
        link: Link {
            before,
            step,
            after: (found.columns, found.rows),
        },
    }
}

/// The row of a block of two rows with both marks of a column, or the size where there is none.
fn row_of_both(grid: &Grid, c: u8) -> u8
    requires { c < size grid.now }
    ensures { result ≡ row_of_both grid.now c }
{
    let cross = grid.row_of(Kind::Cross, c);
    let ring = grid.row_of(Kind::Ring, c);
    first_of_pair(cross, ring, grid.size())
}

/// A stabilisation: the mark of a kind in a column becomes a block of three, with the other kind in this corner.
#[derive(Clone, Copy)]
struct Stabilisation {
    column: u8,
    kind: Kind,
    corner: Corner,
}

impl Stabilisation {
    ghost use Rattle.grid_moves.specs.declared.step.Move.TheVariants.{Stabilise};

    /// It as a move.
    fn step(self) -> Move
        ensures { result ≡ Stabilise self.column self.kind self.corner }
    {
        Move::Stabilise {
            column: self.column,
            kind: self.kind,
            corner: self.corner,
        }
    }
}

/// The grid as a short one, where a short one has room for one more column.
fn short_of(grid: &Grid) -> Option<ShortGrid>
    ensures { IsShortOf grid.now result }
{
    if (grid.size() as usize) < MAX_SHORT_SIZE {
        Some(ShortGrid::of(grid))
    } else {
        None
    }
}
