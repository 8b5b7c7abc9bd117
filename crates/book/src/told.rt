// The report of a call, and how many of its rows are told.
ghost use Rattle.std.specs.Prelude.{◌≡◌, ◌≤◌, [], ◌∷◌, map, length};
ghost use Rattle.market.specs.Orders.{sized};
ghost use Rattle.market.specs.Rows.{blank, some_rows, share_rows, leg_row, cancel_row};
ghost use Rattle.book.specs.Bounds.{SmallLegs, LegsFit};
ghost use Rattle.book.specs.Table.{lent};
ghost use Rattle.book.specs.Reports.{Holds, Tells};

use crate::fill::Fill;
use crate::rows::{cancel_row, combination_row, leg_row, trade_row};
use crate::sized::sized;
use market::counts::{Contracts, Units};
use market::leg::Leg;
use market::order::Order;
use market::row::Row;

// The caller's report, and how many of its rows are told; none once more were told than it has.
// The rows are the caller's slice, of any length, and a call takes no memory: so this is no vector.
#[derive(Drop)]
pub(crate) struct Told<'a> {
    pub rows: &'a mut [Row],
    pub count: Option<usize>,
}

impl<'a> Told<'a> {
    // A report with no row told yet.
    pub(crate) fn start(rows: &'a mut [Row]) -> Told<'a>
        ensures same { result.rows.ghost_name ≡ rows.entry.ghost_name }
        ensures blank { result.rows.now ≡ blank (length rows.old) }
        ensures holds { Holds result [] }
    {
        let mut told = Told {
            rows,
            count: Some(0),
        };
        told.wipe();
        told
    }

    // Takes back all that was told; no `refuse` of the market's, as the call may go on.
    pub(crate) fn wipe(&mut self)
        ensures same { self.new.rows.ghost_name ≡ self.old.rows.ghost_name }
        ensures blank { self.new.rows.now ≡ blank (length self.old.rows.now) }
        ensures holds { Holds self.new [] }
    {
        self.rows.fill(Row::blank());
        self.count = Some(0);
    }

    pub(crate) fn push(&mut self, row: Row)
        ensures { Tells self.old (row ∷ []) self.new }
    {
        match self.count {
            Some(n) if n < self.rows.len() => {
                self.rows[n] = row;
                self.count = Some(n + 1);
            }
            _ => self.count = None,
        }
    }

    // So much of an order is cancelled.
    pub(crate) fn push_cancelled(&mut self, order: &Order, quantity: u32)
        ensures { Tells self.old (cancel_row (sized order.now quantity) ∷ []) self.new }
    {
        self.push(cancel_row(&sized(*order, quantity)));
    }

    // One share of a fill: a contract trade, or a combination trade and its legs; a share of 0 makes no row.
    pub(crate) fn push_share(&mut self, fill: &Fill<'_>, order: &Order, share: u32)
        requires few { share ≤ 10000 }
        requires legs { LegsFit (lent fill.now.legs) }
        ensures { Tells self.old (some_rows share (share_rows fill.now.number fill.now.taker (lent fill.now.legs) order.now share)) self.new }
    {
        if share == 0 {
            return;
        }
        match fill.legs {
            None => self.push(trade_row(fill, order, Contracts(share))),
            Some(legs) => {
                self.push(combination_row(fill, order, Units(share)));
                self.push_legs(fill, order, Units(share), legs);
            }
        }
    }

    // The legs of a combination trade.
    fn push_legs(&mut self, fill: &Fill<'_>, order: &Order, traded: Units, legs: &[Leg])
        requires few { traded.0 ≤ 10000 }
        requires legs { SmallLegs legs.now }
        ensures { Tells self.old (map (leg_row fill.now.number fill.now.taker order.now traded.0) legs.now) self.new }
    {
        for leg in legs {
            self.push(leg_row(fill, order, traded, leg));
        }
    }
}
