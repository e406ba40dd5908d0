// Terms, rows and the cost.
ghost use Rattle.std.specs.Prelude.{◌≡◌, get_or};
ghost use Rattle.model.specs.Lists.{over};
ghost use Rattle.model.specs.Numbers.{at};
ghost use Rattle.text.specs.Text.{says};
ghost use Rattle.listing.specs.Listed.{layout_in, matrix_in};
ghost use Rattle.listing.specs.Rows.{plus, term, entry, row as row_line, charge, cost_line};

use crate::Assembled;
use crate::each::each;
use model::{Column, Row};
use numbers::item_or;
use text::Writer;

// Double i; past the end NaN, as the definition `at` has it.
pub(crate) fn float_at(xs: &[f64], i: usize) -> f64
    ensures { result ≡ at xs.now i }
{
    item_or(xs, i, f64::NAN)
}

#[tactic(auto, using(text::proofs::Laws::written_nothing))]
fn plus(out: &mut Writer, x: f64)
    ensures { says (plus x) out }
{
    if !text::minus(x) {
        out.put(b'+');
    }
}

impl Assembled<'_> {
    // Of entry i: its row and its column.
    pub(crate) fn row_at(&self, i: usize) -> Row
        ensures { result.at ≡ get_or self.now.contents.rows.now i 0 }
    {
        Row {
            at: item_or(self.contents.rows, i, 0),
        }
    }

    pub(crate) fn column_at(&self, i: usize) -> Column
        ensures { result.at ≡ get_or self.now.contents.columns.now i 0 }
    {
        Column {
            at: item_or(self.contents.columns, i, 0),
        }
    }

    // x times a column.
    fn term(&self, out: &mut Writer, x: f64, column: Column)
        ensures { says (term (layout_in self.now) x column.at) out }
    {
        out.words(b" ");
        plus(out, x);
        out.number(x);
        out.words(b"\xc2\xb7");
        self.layout.name(out, column);
    }

    // Entry i, if it stands in the row.
    #[tactic(auto, using(text::proofs::Laws::written_nothing), unfolding(crate::specs::Rows::entry))]
    fn entry(&self, out: &mut Writer, row: Row, i: usize)
        ensures { says (entry (layout_in self.now) (matrix_in self.now) row.at i) out }
    {
        if self.row_at(i).at == row.at {
            let x = float_at(self.contents.values, i);
            self.term(out, x, self.column_at(i));
        }
    }

    // The terms of a row.
    fn terms(&self, out: &mut Writer, row: Row)
        ensures { says (over (entry (layout_in self.now) (matrix_in self.now) row.at) 0 self.now.counts.entries) out }
    {
        each(
            out,
            0,
            self.counts.entries,
            |out, i| self.entry(out, row, i),
        );
    }

    pub(crate) fn row(&self, out: &mut Writer, row: Row)
        ensures { says (row_line (layout_in self.now) (matrix_in self.now) self.now.counts.entries self.now.contents.right.now row.at) out }
    {
        out.words(b"  ");
        out.decimal(row.at as u64);
        out.words(b":");
        self.terms(out, row);
        out.words(b" + s = ");
        out.number(float_at(self.contents.right, row.at));
        out.words(b"\n");
    }

    // The term of a column in the cost, if it is not zero.
    #[tactic(auto, using(text::proofs::Laws::written_nothing), unfolding(crate::specs::Rows::charge))]
    fn charge(&self, out: &mut Writer, column: Column)
        ensures { says (charge (layout_in self.now) self.now.contents.cost.now column.at) out }
    {
        let x = float_at(self.contents.cost, column.at);
        if x == 0.0 {
            return;
        }
        self.term(out, x, column);
    }

    fn charges(&self, out: &mut Writer)
        ensures { says (over (charge (layout_in self.now) self.now.contents.cost.now) 0 self.now.counts.columns) out }
    {
        each(
            out,
            0,
            self.counts.columns,
            |out, k| self.charge(out, Column { at: k }),
        );
    }

    pub(crate) fn cost_line(&self, out: &mut Writer)
        ensures { says (cost_line (layout_in self.now) self.now.contents.cost.now self.now.counts.columns) out }
    {
        out.words(b"cost:");
        self.charges(out);
        out.words(b"\n");
    }
}
