//! The exchanges and slides of neighbouring columns and of neighbouring rows, in their order.
ghost use Rattle.std.specs.Prelude.{◌≡◌, ◌<◌, ◌≤◌, ◌+◌, ◌∷◌, [], length, true, false};
ghost use Rattle.grid_core.specs.Diagram.{size};
ghost use Rattle.grid_core.specs.Parts.{column_span, ends, column_lows, column_highs, row_lows, row_highs};
ghost use Rattle.grid_moves.specs.Step.{Step};
ghost use Rattle.grid_moves.specs.Exchanged.{columns_exchanged, rows_exchanged};
ghost use Rattle.grid_keys.specs.Translation.{translate};
ghost use Rattle.grid_canon.specs.ShortTrades.{trades_of};
ghost use Rattle.next_moves.specs.declared.offers.TheConstants.{MAX_OFFERS};
ghost use Rattle.next_moves.specs.Tries.{try_column_exchange, try_column_slide, column_trade_tries, all_column_trade_tries};
ghost use Rattle.next_moves.specs.Tries.{try_row_exchange, try_row_slide, row_trade_tries, all_row_trade_tries};
ghost use Rattle.next_moves.specs.Offers.{is_legal};
ghost use Rattle.lane_spans.specs.Columns as lane_columns;
ghost use Rattle.lane_spans.specs.Columns.{has_bit};
ghost use Rattle.next_moves.specs.Extends.{ExtendsBy};

use crate::offer_list::OfferList;
use crate::side_by_side::shift_before;
use crate::spans::Spans;
use crate::tries::Tries;
use grid_canon::ShortTrades;
use grid_moves::Move;
use lane_spans::has_bit;

impl<'a> Tries<'a> {
    /// Appends the exchanges and slides of neighbouring columns.
    pub(crate) fn trade_columns(&self, list: &mut OfferList)
        requires room { length list.old.items + size self.now.diagram ≤ MAX_OFFERS }
        ensures { ExtendsBy (size self.now.diagram) self.now (all_column_trade_tries (size self.now.diagram)) list.old list.new }
    {
        let _size = self.size();
        match self.short() {
            Some(short) => self.trade_short_columns(list, &short.column_trades()),
            None => self.trade_long_columns(list),
        }
    }

    /// Appends them by the trades of the short grid.
    fn trade_short_columns(&self, list: &mut OfferList, trades: &ShortTrades)
        requires trades { trades.now ≡ trades_of (size self.now.diagram) (column_span self.now.diagram) }
        requires room { length list.old.items + size self.now.diagram ≤ MAX_OFFERS }
        ensures { ExtendsBy (size self.now.diagram) self.now (all_column_trade_tries (size self.now.diagram)) list.old list.new }
    {
        let size = self.size();
        for c in 0..size {
            self.trade_short_column(list, trades, c);
        }
    }

    /// Appends the offer of the move by which a column and the next one change places, where there is one, by the trades of the short grid.
    fn trade_short_column(&self, list: &mut OfferList, trades: &ShortTrades, c: u8)
        requires column { c < size self.now.diagram }
        requires trades { trades.now ≡ trades_of (size self.now.diagram) (column_span self.now.diagram) }
        requires room { length list.old.items < MAX_OFFERS }
        ensures { ExtendsBy 1 self.now (column_trade_tries (size self.now.diagram) c) list.old list.new }
    {
        let _size = self.size();
        if trades.may_exchange(c) {
            self.exchange_columns(list, c);
        } else if trades.may_slide(c) {
            self.slide_columns(list, c);
        }
    }

    /// Appends them where there is no short grid, by the spans of all columns.
    fn trade_long_columns(&self, list: &mut OfferList)
        requires room { length list.old.items + size self.now.diagram ≤ MAX_OFFERS }
        ensures { ExtendsBy (size self.now.diagram) self.now (all_column_trade_tries (size self.now.diagram)) list.old list.new }
    {
        let size = self.size();
        let spans = Spans::of_columns(self.grid());
        let exchanges = spans.exchanges();
        for c in 0..size {
            self.trade_column(list, &spans, exchanges, c);
        }
    }

    /// Appends the offer of the move by which a column and the next one change places, where there is one: by the spans of the columns, and the
    /// mask of their exchanges.
    fn trade_column(&self, list: &mut OfferList, spans: &Spans, exchanges: u64, c: u8)
        requires column { c < size self.now.diagram }
        requires lows { spans.now.lows.items ≡ column_lows self.now.diagram }
        requires highs { spans.now.highs.items ≡ column_highs self.now.diagram }
        requires exchanges { has_bit exchanges c ≡ lane_columns.trades (column_lows self.now.diagram) (column_highs self.now.diagram) c }
        requires room { length list.old.items < MAX_OFFERS }
        ensures { ExtendsBy 1 self.now (column_trade_tries (size self.now.diagram) c) list.old list.new }
    {
        let size = self.size();
        if has_bit(exchanges, c) {
            self.exchange_columns(list, c);
        } else if spans.touch_once(c, size) {
            self.slide_columns(list, c);
        }
    }

    /// Appends the exchange of a column and the next one, which is legal.
    fn exchange_columns(&self, list: &mut OfferList, c: u8)
        requires column { c < size self.now.diagram }
        requires legal { is_legal self.now.diagram (try_column_exchange (size self.now.diagram) c) ≡ true }
        requires room { length list.old.items < MAX_OFFERS }
        ensures { ExtendsBy 1 self.now (column_trade_tries (size self.now.diagram) c) list.old list.new }
    {
        let by = shift_before(c, self.size());
        let place = c - by;
        self.push_columns_exchanged(list, by, place, Move::ExchangeColumns(place));
    }

    /// Appends the slide of a column and the next one, which is legal.
    fn slide_columns(&self, list: &mut OfferList, c: u8)
        requires column { c < size self.now.diagram }
        requires no_exchange { is_legal self.now.diagram (try_column_exchange (size self.now.diagram) c) ≡ false }
        requires legal { is_legal self.now.diagram (try_column_slide (size self.now.diagram) c) ≡ true }
        requires room { length list.old.items < MAX_OFFERS }
        ensures { ExtendsBy 1 self.now (column_trade_tries (size self.now.diagram) c) list.old list.new }
    {
        let by = shift_before(c, self.size());
        let place = c - by;
        self.push_columns_exchanged(list, by, place, Move::SlideColumns(place));
    }

    /// Appends the offer of a legal move by which two columns that are side by side, after a shift by none or by 1, change places: made on the
    /// short grid, where there is one.
    fn push_columns_exchanged(&self, list: &mut OfferList, by: u8, place: u8, step: Move)
        requires by { by ≤ 1 }
        requires place { place + 1 < size self.now.diagram }
        requires step { Step (translate self.now.diagram by 0) step (columns_exchanged place (translate self.now.diagram by 0)) }
        requires room { length list.old.items < MAX_OFFERS }
        ensures { ExtendsBy 1 self.now (record { before = (by, 0); step = step } ∷ []) list.old list.new }
    {
        let _size = self.size();
        match self.short() {
            Some(short) => {
                let moved = short.translated(by, 0).with_columns_exchanged(place);
                self.push_moved(list, &moved, (by, 0), step);
            }
            None => self.try_move(list, (by, 0), step),
        }
    }

    /// Appends the exchanges and slides of neighbouring rows.
    pub(crate) fn trade_rows(&self, list: &mut OfferList)
        requires room { length list.old.items + size self.now.diagram ≤ MAX_OFFERS }
        ensures { ExtendsBy (size self.now.diagram) self.now (all_row_trade_tries (size self.now.diagram)) list.old list.new }
    {
        let _size = self.size();
        match self.short() {
            Some(short) => self.trade_short_rows(list, &short.row_trades()),
            None => self.trade_long_rows(list),
        }
    }

    /// Appends them by the trades of the short grid.
    fn trade_short_rows(&self, list: &mut OfferList, trades: &ShortTrades)
        requires trades { trades.now ≡ trades_of (size self.now.diagram) (ends self.now.diagram) }
        requires room { length list.old.items + size self.now.diagram ≤ MAX_OFFERS }
        ensures { ExtendsBy (size self.now.diagram) self.now (all_row_trade_tries (size self.now.diagram)) list.old list.new }
    {
        let size = self.size();
        for r in 0..size {
            self.trade_short_row(list, trades, r);
        }
    }

    /// Appends the offer of the move by which a row and the next one change places, where there is one, by the trades of the short grid.
    fn trade_short_row(&self, list: &mut OfferList, trades: &ShortTrades, r: u8)
        requires row { r < size self.now.diagram }
        requires trades { trades.now ≡ trades_of (size self.now.diagram) (ends self.now.diagram) }
        requires room { length list.old.items < MAX_OFFERS }
        ensures { ExtendsBy 1 self.now (row_trade_tries (size self.now.diagram) r) list.old list.new }
    {
        let _size = self.size();
        if trades.may_exchange(r) {
            self.exchange_rows(list, r);
        } else if trades.may_slide(r) {
            self.slide_rows(list, r);
        }
    }

    /// Appends them where there is no short grid, by the spans of all rows.
    fn trade_long_rows(&self, list: &mut OfferList)
        requires room { length list.old.items + size self.now.diagram ≤ MAX_OFFERS }
        ensures { ExtendsBy (size self.now.diagram) self.now (all_row_trade_tries (size self.now.diagram)) list.old list.new }
    {
        let size = self.size();
        let spans = Spans::of_rows(self.grid());
        let exchanges = spans.exchanges();
        for r in 0..size {
            self.trade_row(list, &spans, exchanges, r);
        }
    }

    /// Appends the offer of the move by which a row and the next one change places, where there is one: by the spans of the rows, and the
    /// mask of their exchanges.
    fn trade_row(&self, list: &mut OfferList, spans: &Spans, exchanges: u64, r: u8)
        requires row { r < size self.now.diagram }
        requires lows { spans.now.lows.items ≡ row_lows self.now.diagram }
        requires highs { spans.now.highs.items ≡ row_highs self.now.diagram }
        requires exchanges { has_bit exchanges r ≡ lane_columns.trades (row_lows self.now.diagram) (row_highs self.now.diagram) r }
        requires room { length list.old.items < MAX_OFFERS }
        ensures { ExtendsBy 1 self.now (row_trade_tries (size self.now.diagram) r) list.old list.new }
    {
        let size = self.size();
        if has_bit(exchanges, r) {
            self.exchange_rows(list, r);
        } else if spans.touch_once(r, size) {
            self.slide_rows(list, r);
        }
    }

    /// Appends the exchange of a row and the next one, which is legal.
    fn exchange_rows(&self, list: &mut OfferList, r: u8)
        requires row { r < size self.now.diagram }
        requires legal { is_legal self.now.diagram (try_row_exchange (size self.now.diagram) r) ≡ true }
        requires room { length list.old.items < MAX_OFFERS }
        ensures { ExtendsBy 1 self.now (row_trade_tries (size self.now.diagram) r) list.old list.new }
    {
        let by = shift_before(r, self.size());
        let place = r - by;
        self.push_rows_exchanged(list, by, place, Move::ExchangeRows(place));
    }

    /// Appends the slide of a row and the next one, which is legal.
    fn slide_rows(&self, list: &mut OfferList, r: u8)
        requires row { r < size self.now.diagram }
        requires no_exchange { is_legal self.now.diagram (try_row_exchange (size self.now.diagram) r) ≡ false }
        requires legal { is_legal self.now.diagram (try_row_slide (size self.now.diagram) r) ≡ true }
        requires room { length list.old.items < MAX_OFFERS }
        ensures { ExtendsBy 1 self.now (row_trade_tries (size self.now.diagram) r) list.old list.new }
    {
        let by = shift_before(r, self.size());
        let place = r - by;
        self.push_rows_exchanged(list, by, place, Move::SlideRows(place));
    }

    /// Appends the offer of a legal move by which two rows that are side by side, after a shift by none or by 1, change places: made on the
    /// short grid, where there is one.
    fn push_rows_exchanged(&self, list: &mut OfferList, by: u8, place: u8, step: Move)
        requires by { by ≤ 1 }
        requires place { place + 1 < size self.now.diagram }
        requires step { Step (translate self.now.diagram 0 by) step (rows_exchanged place (translate self.now.diagram 0 by)) }
        requires room { length list.old.items < MAX_OFFERS }
        ensures { ExtendsBy 1 self.now (record { before = (0, by); step = step } ∷ []) list.old list.new }
    {
        let _size = self.size();
        match self.short() {
            Some(short) => {
                let moved = short.translated(0, by).with_rows_exchanged(place);
                self.push_moved(list, &moved, (0, by), step);
            }
            None => self.try_move(list, (0, by), step),
        }
    }
}
