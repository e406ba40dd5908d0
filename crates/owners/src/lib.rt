// Who owns a row or a column, by any index with a number of objectives.

#![tactic(auto)]

ghost use Rattle.std.specs.Prelude.{◌≡◌, Ok, ◌+◌, ◌*◌, ◌≤◌, length, find};
ghost use Rattle.std.specs.List.{range_with_len};
ghost use Rattle.model.specs.OwnerAnswers;
ghost use Rattle.model.specs.OwnerAnswers.{told_owner, owned_by, in_range, owner_of, owner_of_row, owner_of_column};
ghost use Rattle.owners.specs.Lists.{list_number};

use model::{Column, Owner, OwnerAnswer, OwnerRefusal, Row};

// Which of an owner's lists holds the number that is asked for. Nobody asks for an entry or a cone.
#[derive(Clone, Copy)]
enum IndexList {
    Rows = 1,
    Columns = 3,
}

impl IndexList {
    // Its number in the index: 0 entries, 1 rows, 2 cones, 3 columns.
    fn number(self) -> usize
        ensures { result ≡ list_number self }
    {
        self as usize
    }
}

// The range of `size` numbers from `first` on holds r. The sum could wrap, so the difference is taken.
fn in_range(first: usize, size: usize, r: usize) -> bool
    ensures { result ≡ in_range first size r }
{
    if r < first {
        return false;
    }
    r - first < size
}

// The range of owner k in a list holds r.
#[tactic(auto, using(crate::proofs::Search::list_small))]
fn within(index: &[usize], list: IndexList, r: usize, k: usize) -> bool
    requires { 8 * k + 8 ≤ length index.now }
    ensures { result ≡ OwnerAnswers.within index.now (list_number list) r k }
{
    let at = 8 * k + list.number();
    let first = index[at];
    let size = index[at + 4];
    in_range(first, size, r)
}

// The owner at place k of the order.
fn owned_by(k: usize) -> Owner
    ensures { told_owner (Ok result) ≡ owned_by k }
{
    match k {
        0 => Owner::StandardRows,
        1 => Owner::RootStage,
        _ => Owner::ObjectiveNumber(k - 2),
    }
}

// The place of the lowest owner whose range in a list holds r.
fn first_within(index: &[usize], list: IndexList, objectives: usize, r: usize) -> Option<usize>
    requires { 8 * (objectives + 2) ≤ length index.now }
    ensures { result ≡ find (OwnerAnswers.within index.now (list_number list) r) (range_with_len 0 (objectives + 2)) }
{
    (0..objectives + 2).find(
        |k|
            requires { 8 * k.now + 8 ≤ length index.now }
        { within(index, list, r, *k) },
    )
}

// The lowest owner whose range in a list holds r. The product 8·(objectives + 2) could wrap, so the length is divided.
fn owner_of(index: &[usize], list: IndexList, objectives: usize, r: usize) -> OwnerAnswer
    ensures { told_owner result ≡ owner_of (list_number list) index.now objectives r }
{
    let owners = index.len() / 8;
    if owners < 2 {
        return Err(OwnerRefusal::IndexTooShort);
    }
    if owners - 2 < objectives {
        return Err(OwnerRefusal::IndexTooShort);
    }
    match first_within(index, list, objectives, r) {
        Some(k) => Ok(owned_by(k)),
        None => Err(OwnerRefusal::NotCovered),
    }
}

// The owner of a row. Here and below the index and the number of objectives come apart, as they did from the start.
pub fn owner_of_row(index: &[usize], objectives: usize, row: Row) -> OwnerAnswer
    ensures { told_owner result ≡ owner_of_row index.now objectives row.at }
{
    owner_of(index, IndexList::Rows, objectives, row.at)
}

// The owner of a column; below 2n+2 no range of an assembled index holds it.
pub fn owner_of_column(index: &[usize], objectives: usize, column: Column) -> OwnerAnswer
    ensures { told_owner result ≡ owner_of_column index.now objectives column.at }
{
    owner_of(index, IndexList::Columns, objectives, column.at)
}
