// The pattern of the matrix as a picture.
ghost use Rattle.std.specs.Prelude.{◌≡◌, ◌&&◌, [], ◌∷◌, nat_eq, get_or, find};
ghost use Rattle.std.specs.List.{range_with_len};
ghost use Rattle.model.specs.Lists.{over};
ghost use Rattle.text.specs.Text.{says};
ghost use Rattle.column_names.specs.Columns.{letter_at};
ghost use Rattle.listing.specs.Listed.{layout_in, matrix_in};
ghost use Rattle.listing.specs.Pattern.{sign_mark, mark_from, picture_row, picture};

use crate::Assembled;
use crate::each::each;
use crate::rows::float_at;
use model::{Column, Row};
use text::Writer;

fn sign_mark(x: f64) -> u8
    ensures { result ≡ sign_mark x }
{
    if 0.0 < x {
        b'+'
    } else if x < 0.0 {
        b'-'
    } else {
        b'0'
    }
}

impl Assembled<'_> {
    // Whether entry i stands at a row and a column.
    fn stands_at(&self, i: usize, row: Row, column: Column) -> bool
        ensures { result ≡ (nat_eq (get_or self.now.contents.rows.now i 0) row.at && nat_eq (get_or self.now.contents.columns.now i 0) column.at) }
    {
        self.row_at(i).at == row.at && self.column_at(i).at == column.at
    }

    // The first entry at a row and a column.
    fn first_at(&self, row: Row, column: Column) -> Option<usize>
        ensures { result ≡ find (λ i. nat_eq (get_or self.now.contents.rows.now i 0) row.at && nat_eq (get_or self.now.contents.columns.now i 0) column.at) (range_with_len 0 self.now.counts.entries) }
    {
        (0..self.counts.entries).find(|i| self.stands_at(*i, row, column))
    }

    // The mark of a row and a column: that of the first entry there.
    #[tactic(auto, using(crate::proofs::Marks::mark_found))]
    fn mark(&self, row: Row, column: Column) -> u8
        ensures { result ≡ mark_from (matrix_in self.now) row.at column.at 0 self.now.counts.entries }
    {
        match self.first_at(row, column) {
            Some(i) => sign_mark(float_at(self.contents.values, i)),
            None => b'.',
        }
    }

    fn marks(&self, out: &mut Writer, row: Row)
        ensures { says (over (λ k. mark_from (matrix_in self.now) row.at k 0 self.now.counts.entries ∷ []) 0 self.now.counts.columns) out }
    {
        each(out, 0, self.counts.columns, |out, k| {
            out.put(self.mark(row, Column { at: k }))
        });
    }

    fn picture_row(&self, out: &mut Writer, row: Row)
        ensures { says (picture_row (matrix_in self.now) self.now.counts.entries self.now.counts.columns row.at) out }
    {
        out.words(b"  ");
        self.marks(out, row);
        out.words(b"  ");
        out.decimal(row.at as u64);
        out.words(b"\n");
    }

    fn letters(&self, out: &mut Writer)
        ensures { says (over (λ k. letter_at (layout_in self.now) k ∷ []) 0 self.now.counts.columns) out }
    {
        each(out, 0, self.counts.columns, |out, k| {
            out.put(self.layout.letter_at(Column { at: k }))
        });
    }

    fn picture_rows(&self, out: &mut Writer)
        ensures { says (over (picture_row (matrix_in self.now) self.now.counts.entries self.now.counts.columns) 0 self.now.counts.rows) out }
    {
        each(
            out,
            0,
            self.counts.rows,
            |out, r| self.picture_row(out, Row { at: r }),
        );
    }

    // The whole picture: the first letters of the columns' words, and a line for each row.
    pub(crate) fn picture(&self, out: &mut Writer)
        ensures { says (picture (layout_in self.now) (matrix_in self.now) self.now.counts.entries self.now.counts.rows self.now.counts.columns) out }
    {
        out.words(b"pattern:\n  ");
        self.letters(out);
        out.words(b"\n");
        self.picture_rows(out);
    }
}
