// A column after a carry, written in place by the two lists of places: those that stay in the node, and those that the target gets. (Places are
// numbers, since the columns are those of the C interface.)
#![tactic(auto)]

ghost use Rattle.std.specs.Prelude.{◌≡◌, ◌-◌, ◌≤◌, length, replicate};
ghost use Rattle.std.proofs.lemmas.List.Edits.{sets};
ghost use Rattle.store.specs.Layout.{places};
ghost use Rattle.moves.specs.Writings.{gather, ToBack, ToFront, Movable, carried_column};

use store::Store;

// Places of the columns in a row: the first of them, and how many. (No `Range`: that can't be copied, and a store has the count.)
#[derive(Clone, Copy)]
pub struct Span {
    pub from: usize,
    pub count: usize,
}

// The numbers at the places of a list go to the places from start on. No place lies beyond its goal: from the last to the first.
// (By index: two places of one column at a time.)
fn gather_back(column: &mut [u32; Store::PLACES], list: &[usize], start: usize)
    requires { ToBack start list.now }
    ensures { column.new ≡ sets column.old start (gather column.old list.now) }
{
    for i in (0..list.len()).rev() {
        column[start + i] = column[list[i]];
    }
}

// The same where no place lies before its goal: from the first to the last. (Not one function with the other: a flag for the direction would
// only choose between the two loops, and each asks its own of the places. The places do not lie side by
// side, so nothing is copied at once.)
fn gather_front(column: &mut [u32; Store::PLACES], list: &[usize], start: usize)
    requires { ToFront start list.now }
    ensures { column.new ≡ sets column.old start (gather column.old list.now) }
{
    for (i, place) in list.iter().enumerate() {
        column[start + i] = column[*place];
    }
}

// Zeros over the places from..end.
fn clear(column: &mut [u32; Store::PLACES], from: usize, end: usize)
    requires { (from ≤ end) × (end ≤ places) }
    ensures { column.new ≡ sets column.old from (replicate (end - from) 0) }
{
    column[from..end].fill(0);
}

// The target's numbers first: none of the node's is lost by them. Then those that stay, and zeros behind them.
pub fn carry_column(
    column: &mut [u32; Store::PLACES],
    stay: &[usize],
    target: &[usize],
    node: Span,
    start: usize,
)
    requires { Movable stay.now target.now node start }
    ensures { column.new ≡ carried_column column.old stay.now target.now node start }
{
    gather_back(column, target, start);
    gather_front(column, stay, node.from);
    clear(column, node.from + stay.len(), node.from + node.count);
}
