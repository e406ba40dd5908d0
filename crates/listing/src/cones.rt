// The cones, each with its rows.
ghost use Rattle.std.specs.Prelude.{◌≡◌, ◌-◌, ◌≤◌, get_or};
ghost use Rattle.model.specs.Lists.{over};
ghost use Rattle.text.specs.Text.{says};
ghost use Rattle.listing.specs.Listed.{layout_in, matrix_in};
ghost use Rattle.listing.specs.Rows.{row, kind_word, cone_head, cone};

use crate::Assembled;
use crate::each::each;
use model::Row;
use numbers::item_or;
use text::Writer;

impl Assembled<'_> {
    // The word of cone j's kind. The byte is document 01's number of the kind: a ConeKind made of it would be matched once more.
    fn kind_word(&self, j: usize) -> &'static [u8]
        ensures { result.now ≡ kind_word (get_or self.now.contents.kinds.now j 3) }
    {
        match self.contents.kinds.get(j) {
            Some(0) => b"zero",
            Some(1) => b"nonnegative",
            Some(2) => b"second-order",
            _ => b"unknown",
        }
    }

    // The line of cone j, whose first row is `first`.
    fn cone_head(&self, out: &mut Writer, j: usize, first: Row)
        ensures { says (cone_head (layout_in self.now) self.now.contents.kinds.now self.now.contents.dimensions.now j first.at) out }
    {
        out.words(b"cone ");
        out.decimal(j as u64);
        out.words(b": ");
        out.words(self.kind_word(j));
        out.words(b", dimension ");
        out.decimal(item_or(self.contents.dimensions, j, 0) as u64);
        out.words(b", ");
        self.layout.row_owner(out, first);
        out.words(b"\n");
    }

    // The rows from `first` to before `end`.
    fn cone_rows(&self, out: &mut Writer, first: Row, end: Row)
        requires { first.at ≤ end.at }
        ensures { says (over (row (layout_in self.now) (matrix_in self.now) self.now.counts.entries self.now.contents.right.now) first.at (end.at - first.at)) out }
    {
        each(
            out,
            first.at,
            end.at - first.at,
            |out, r| self.row(out, Row { at: r }),
        );
    }

    // All cones. Where a dimension leads past the last row, the cone ends there.
    pub(crate) fn cones(&self, out: &mut Writer)
        ensures { says (over (cone (layout_in self.now) (matrix_in self.now) self.now.counts.entries self.now.contents.right.now self.now.counts.rows self.now.contents.kinds.now self.now.contents.dimensions.now) 0 self.now.counts.cones) out }
    {
        let mut first = Row { at: 0 };
        // Over numbers: the buffers lent may hold fewer kinds and dimensions than there are cones.
        for j in 0..self.counts.cones {
            let dimension = item_or(self.contents.dimensions, j, 0);
            let end = Row {
                at: first.at.saturating_add(dimension).min(self.counts.rows),
            };
            self.cone_head(out, j, first);
            self.cone_rows(out, first, end);
            first = end;
        }
    }
}
