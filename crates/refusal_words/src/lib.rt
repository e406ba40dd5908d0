// A refused problem in words, and who is to look where.
#![tactic(auto)]

ghost use Rattle.std.specs.Prelude.{◌≡◌, ◌++◌};
ghost use Rattle.model.specs.Lent.{at_entry};
ghost use Rattle.text.specs.Text.{says};
ghost use Rattle.text.specs.Digits.{decimal};
ghost use Rattle.refusal_words.specs.Refusals.{complaint, place, person, refused};

use text::Writer;

// What is wrong. The number stays a usize here and below: any number is answered, from the start.
#[tactic(auto, unfolding(crate::specs::Refusals::complaint))]
fn complaint(number: usize) -> &'static [u8]
    ensures { result.now ≡ complaint number }
{
    match number {
        1 => b"a boundary number is not finite",
        2 => b"a boundary a is below 0",
        3 => b"a path at rest moves backward",
        4 => b"there are fewer than 3 stations",
        5 => b"there are too many stations",
        6 => b"a grid number is not finite",
        7 => b"a grid number is not above the one before",
        8 => b"d is outside 1 to 32",
        9 => b"there is no objective",
        10 => b"there are more than 16 objectives",
        11 => b"a weight is NaN, infinite or negative",
        12 => b"a list has a wrong length or runs past the pool",
        13 => b"a scale is NaN, infinite or negative",
        14 => b"the stationary counts leave no moving interval",
        15 => b"a table has a wrong length",
        16 => b"a row count is above 256",
        17 => b"a bound is NaN or infinite where it may not be",
        18 => b"a stationary maximum is below its minimum",
        19 => b"a buffer is too short",
        20 => b"a number to be written is not finite",
        28 => b"the index is too short",
        _ => b"this number is not one of the assembly's",
    }
}

// Words, and the place that they end in.
#[tactic(auto, using(text::proofs::Laws::written_append))]
fn placed(out: &mut Writer, text: &[u8], k: usize)
    ensures { says (at_entry text ++ decimal k) out }
{
    out.words(text);
    out.decimal(k as u64);
}

// Where to look; k is the refusal's place. Any number is answered. Each line says the words and whether the place follows them; a second table for that would tell each rule twice.
#[tactic(auto, unfolding(crate::specs::Refusals::place))]
fn place(out: &mut Writer, number: usize, k: usize)
    ensures { says (place number k) out }
{
    match number {
        1 => placed(out, b"boundary number ", k),
        2 | 3 | 18 => placed(out, b"end ", k),
        4 | 5 => out.words(b"the grid"),
        6 | 7 => placed(out, b"station ", k),
        8 => out.words(b"d"),
        9 | 10 => out.words(b"the objectives"),
        11..=13 => placed(out, b"objective ", k),
        14 => out.words(b"N0 and N1"),
        15 => placed(out, b"table ", k),
        16 => placed(out, b"tables 0 and 1, station ", k),
        17 => placed(out, b"bound ", k),
        19 => placed(out, b"buffer ", k),
        20 => out.words(b"the grid, the tables and the objectives"),
        28 => out.words(b"the index"),
        _ => out.words(b"document 01"),
    }
}

// Who is to look. Any number is answered.
#[tactic(auto, unfolding(crate::specs::Refusals::person))]
fn person(number: usize) -> &'static [u8]
    ensures { result.now ≡ person number }
{
    match number {
        1..=7 => b"draws the path",
        8..=13 => b"sets up the job",
        19 | 28 => b"lends the buffers",
        14..=20 => b"fills the tables",
        _ => b"calls the library",
    }
}

// The whole line of a refusal. Both numbers stay usize: a refusal is told by its number and place as C and the documents have them.
pub fn refused(out: &mut Writer, number: usize, k: usize)
    ensures { says (refused number k) out }
{
    out.words(b"refused ");
    out.decimal(number as u64);
    out.words(b", place ");
    out.decimal(k as u64);
    out.words(b": ");
    out.words(complaint(number));
    out.words(b"; whoever ");
    out.words(person(number));
    out.words(b" is to look at ");
    place(out, number, k);
    out.words(b".\n");
}
