// An assembled problem as text, for a person: docs/LISTING.md.
#![tactic(auto)]

mod cones;
mod contents;
mod each;
mod numbered;
mod pattern;
mod rows;

ghost use Rattle.std.specs.Prelude.{◌≡◌};
ghost use Rattle.text.specs.Text.{says};
ghost use Rattle.listing.specs.Listed.{contents_of};
ghost use Rattle.listing.specs.Page.{counts_line, page_told};

use column_names::Layout;
pub use contents::Contents;
use model::{FourCounts, Objective};
pub use numbered::{Numbered, NumberedRefusal};
use text::Writer;

// An accepted problem: what its names and owners go by, its four counts, and what the buffers hold.
#[derive(Clone, Copy)]
struct Assembled<'a> {
    layout: Layout<'a>,
    counts: FourCounts,
    contents: Contents<'a>,
}

fn counts_line(out: &mut Writer, counts: FourCounts)
    ensures { says (counts_line counts.entries counts.rows counts.cones counts.columns) out }
{
    out.words(b"entries ");
    out.decimal(counts.entries as u64);
    out.words(b", rows ");
    out.decimal(counts.rows as u64);
    out.words(b", cones ");
    out.decimal(counts.cones as u64);
    out.words(b", columns ");
    out.decimal(counts.columns as u64);
    out.words(b"\n");
}

// The page of an answer and of what the buffers hold after it. The index is that of the buffers, so what names go by comes in parts and not as a Layout.
// A refusal is any that has a number and a place: an Answer's, which has the number of its Rule, or a NumberedRefusal of any number.
#[tactic(auto, using(text::proofs::Laws::written_append), unfolding(crate::specs::Page::page_told))]
pub fn page<E: Numbered>(
    out: &mut Writer,
    answer: Result<FourCounts, E>,
    stations: usize,
    objectives: &[Objective],
    count: usize,
    contents: &Contents,
)
    ensures { says (page_told E.number_of E.place_of stations objectives.now count answer (contents_of contents.now)) out }
{
    match answer {
        Err(refusal) => refusal_words::refused(out, refusal.number(), refusal.place()),
        Ok(counts) => {
            let layout = Layout {
                stations,
                objectives,
                count,
                index: contents.index,
            };
            let assembled = Assembled {
                layout,
                counts,
                contents: *contents,
            };
            counts_line(out, counts);
            assembled.cones(out);
            assembled.cost_line(out);
            assembled.picture(out);
        }
    }
}
