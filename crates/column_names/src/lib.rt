// The names of columns, and who owns a row, in words.
#![tactic(auto)]

ghost use Rattle.std.specs.Prelude.{◌≡◌, ◌+◌, nat_eq, map, count_by};
ghost use Rattle.std.specs.List.{range_with_len};
ghost use Rattle.text.specs.Text.{says};
ghost use Rattle.column_names.specs.Columns.{layout_of, slot_at, own_letter, letter_at, word, name, kind_name, owner_name, row_owner};

use model::{Column, Objective, Owner, Row};
use numbers::item_or;
use text::Writer;

// What names and owners go by: the number of stations, the objectives, how many of them count, the index. `count` stands beside `objectives` and isn't its length: a job's count may be any number, and no function here asks that so many objectives are lent.
#[derive(Clone, Copy)]
pub struct Layout<'a> {
    pub stations: usize,
    pub objectives: &'a [Objective],
    pub count: usize,
    pub index: &'a [usize],
}

fn own_letter(o: Objective) -> u8
    ensures { result ≡ own_letter o }
{
    match o {
        Objective::Time(..) => b'e',
        Objective::ThermalEnergy { .. } => b't',
        Objective::TotalVariationTorque { .. } => b't',
        Objective::Linear { .. } => b'?',
    }
}

fn kind_name(o: Objective) -> &'static [u8]
    ensures { result.now ≡ kind_name o }
{
    match o {
        Objective::Time(..) => b"Time",
        Objective::ThermalEnergy { .. } => b"ThermalEnergy",
        Objective::TotalVariationTorque { .. } => b"TotalVariationTorque",
        Objective::Linear { .. } => b"Linear",
    }
}

// Two letters stand for words, any other for itself: each arm writes what it says, and a table of words would need each byte as text.
#[tactic(auto, unfolding(crate::specs::Columns::word))]
fn word(out: &mut Writer, letter: u8)
    ensures { says (word letter) out }
{
    match letter {
        b'x' => out.words(b"xi"),
        b'e' => out.words(b"eta"),
        _ => out.put(letter),
    }
}

impl Layout<'_> {
    // Objective i; past the end a Linear, which has no column.
    fn slot_at(&self, i: usize) -> Objective
        ensures { result ≡ slot_at self.now.objectives.now i }
    {
        let none = Objective::Linear {
            weight: 0.0,
            alpha: 0,
            alpha_len: 0,
            beta: 0,
            beta_len: 0,
        };
        item_or(self.objectives, i, none)
    }

    // The first letter of a column's word: a, b, x for xi, e for eta, t; `?` for a column that nobody owns. A byte, since that is what was answered from the start, and `word` alone matches it.
    #[tactic(auto, unfolding(crate::specs::Columns::letter_at, crate::specs::Columns::owner_letter))]
    pub fn letter_at(&self, column: Column) -> u8
        ensures { result ≡ letter_at (layout_of self.now) column.at }
    {
        if column.at < self.stations {
            return b'a';
        }
        if column.at - self.stations < self.stations {
            return b'b';
        }
        match owners::owner_of_column(self.index, self.count, column) {
            Ok(Owner::RootStage) => b'x',
            Ok(Owner::ObjectiveNumber(i)) => own_letter(self.slot_at(i)),
            Ok(Owner::StandardRows) | Err(_) => b'?',
        }
    }

    // How many of the columns before this one have the letter.
    fn before(&self, letter: u8, column: Column) -> usize
        ensures { result ≡ count_by (λ x. nat_eq x letter) (map (λ k. letter_at (layout_of self.now) k) (range_with_len 0 column.at)) }
    {
        (0..column.at)
            .map(|k| self.letter_at(Column { at: k }))
            .filter(|other| *other == letter)
            .count()
    }

    // The name of a column.
    #[tactic(auto, using(text::proofs::Laws::written_append, crate::proofs::Names::before_counts), unfolding(crate::specs::Columns::name))]
    pub fn name(&self, out: &mut Writer, column: Column)
        ensures { says (name (layout_of self.now) column.at) out }
    {
        let letter = self.letter_at(column);
        word(out, letter);
        out.decimal(self.before(letter, column) as u64);
    }

    // Objective i as an owner.
    fn objective(&self, out: &mut Writer, i: usize)
        ensures { says (owner_name self.now.objectives.now (2 + i)) out }
    {
        out.words(b"objective ");
        out.decimal(i as u64);
        out.words(b", ");
        out.words(kind_name(self.slot_at(i)));
    }

    // The owner of a row.
    #[tactic(auto, unfolding(crate::specs::Columns::row_owner, crate::specs::Columns::owner_name))]
    pub fn row_owner(&self, out: &mut Writer, row: Row)
        ensures { says (row_owner (layout_of self.now) row.at) out }
    {
        match owners::owner_of_row(self.index, self.count, row) {
            Ok(Owner::StandardRows) => out.words(b"standard rows"),
            Ok(Owner::RootStage) => out.words(b"root stage"),
            Ok(Owner::ObjectiveNumber(i)) => self.objective(out, i),
            Err(_) => out.words(b"nobody"),
        }
    }
}
