// Winners: for each pin of a table the number of the entry, of the input layout or of the positions, that gives its planned position.
#![tactic(auto)]

ghost use Rattle.std.specs.Prelude.{◌≡◌, ◌<◌};
ghost use Rattle.std.proofs.Math.Option.{some};
ghost use Rattle.pinmap.specs.PinMap.{after_renewals};
ghost use Rattle.plan_record.specs.Record.{layout_of, layout_pin, positions_of, position_pin};
ghost use Rattle.plan_winners.specs.Winners.{planned_by, position_of, layout_number, position_number, chosen_put, in_use, has_mark, layout_puts, marked_puts, winner_puts, ListsInRange, LayoutAt, PositionAt};

use pinmap::put_where_there;
use plan_record::numbers::{Positions, layout_of, layout_pin, positions_of};
use plan_record::places::layout_base;
use words::units::{EMPTY_PIN, StatePosition};

// A planned position: 1 where it is staged, and the bit's place in the state.
// stays: `staged` is the record's word, compared as it is read and counted into the bit that is asked: a bool would be turned back into it.
#[derive(Drop)]
pub struct Planned {
    pub staged: u32,
    pub place: StatePosition,
}

// The position that entry w gives: the one place where an entry's number is taken apart.
pub fn planned_by(d: &[u8], w: u32) -> Planned
    requires { 0 < w }
    ensures { planned_by d.now w ≡ some (position_of result) }
{
    let layout = layout_of(d);
    if w <= layout {
        return Planned {
            staged: 0,
            place: StatePosition(w - 1),
        };
    }
    let positions = Positions::of(d);
    let i = w - 1 - layout;
    Planned {
        staged: positions.staged(i),
        place: positions.place(i),
    }
}

// Puts entry i of the layout, which begins at word `base`, for its pin.
fn renew_layout(d: &[u8], table: &mut [u32], base: usize, i: u32)
    requires { LayoutAt d.now base i }
    ensures { table.new ≡ after_renewals table.old (chosen_put (in_use d.now i) (layout_pin d.now i) (layout_number i)) }
{
    let pin = layout_pin(d, base, i);
    if pin.0 != EMPTY_PIN {
        put_where_there(table, pin, 1 + i);
    }
}

// Puts entry i of the positions, which are numbered from `first` on, for its pin, if its mark is `mark`.
fn renew_position(positions: &Positions, table: &mut [u32], first: u32, mark: u32, i: u32)
    requires { PositionAt positions.now.d.now first i }
    ensures { table.new ≡ after_renewals table.old (chosen_put (has_mark positions.now.d.now mark i) (position_pin positions.now.d.now i) (position_number positions.now.d.now i)) }
{
    if positions.staged(i) == mark {
        put_where_there(table, positions.pin(i), first + i);
    }
}

// The layout's entries.
fn fill_layout(d: &[u8], table: &mut [u32])
    requires { ListsInRange d.now }
    ensures { table.new ≡ after_renewals table.old (layout_puts d.now (layout_of d.now)) }
{
    let base = layout_base(d);
    for i in 0..layout_of(d) {
        renew_layout(d, table, base, i);
    }
}

// The positions with mark `mark`.
fn fill_marked(d: &[u8], table: &mut [u32], mark: u32)
    requires { ListsInRange d.now }
    ensures { table.new ≡ after_renewals table.old (marked_puts d.now mark (positions_of d.now)) }
{
    let positions = Positions::of(d);
    let first = 1 + layout_of(d);
    for i in 0..positions_of(d) {
        renew_position(&positions, table, first, mark, i);
    }
}

// Each pin that is in the table gets the number of the entry that wins for it: a later list wins over an earlier one.
pub fn fill_winners(d: &[u8], table: &mut [u32])
    requires { ListsInRange d.now }
    ensures { table.new ≡ after_renewals table.old (winner_puts d.now) }
{
    fill_marked(d, table, 1);
    fill_layout(d, table);
    fill_marked(d, table, 0);
}
