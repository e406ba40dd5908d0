// Assembles three problems and prints each for a person, as docs/LISTING.md has it.
#![tactic(auto)]

ghost use Rattle.std.specs.Prelude.{◌≡◌, ◌≤◌, length, take};
ghost use Rattle.show.specs.Shown.{Shown};

use listing::Contents;
use model::Buffers;
use std::io;
use text::Writer;

// Assembles problem number i, as shown_problems has it, and writes its page at the start of `out`. It answers the length: the caller lends the buffer, and writes what is before that length.
fn page_at(i: usize, out: &mut [u8]) -> usize
    ensures shown { Shown i out.old out.new result }
    ensures in_bounds { result ≤ length out.new }
    ensures prefix_len { result ≡ length (take result out.new) }
{
    let mut rows = [0usize; 160];
    let mut columns = [0usize; 160];
    let mut values = [0.0; 160];
    let mut right = [0.0; 96];
    let mut kinds = [0u8; 32];
    let mut dimensions = [0usize; 32];
    let mut cost = [0.0; 32];
    let mut index = [0usize; 64];
    let mut buffers = Buffers {
        rows: &mut rows,
        columns: &mut columns,
        values: &mut values,
        right: &mut right,
        kinds: &mut kinds,
        dimensions: &mut dimensions,
        cost: &mut cost,
        index: &mut index,
    };
    let answer = shown_problems::assemble(i, &mut buffers);
    let stations = shown_problems::stations_at(i);
    let objectives = shown_problems::objectives_at(i);
    let count = shown_problems::objective_count_at(i);
    let mut page = Writer { buffer: out, at: 0 };
    let contents = Contents::from(&buffers);
    listing::page(&mut page, answer, stations, &objectives, count, &contents);
    page.at
}

// A line that tells the problem, and its page.
fn print(rt: &impl Print, i: usize, title: &[u8]) -> io::Result<()> {
    rt.write_all(title)?;
    let mut buffer = [0u8; 65536];
    let n = page_at(i, &mut buffer);
    rt.write_all(&buffer[..n])
}

fn main(rt: HostRuntime) -> io::Result<()> {
    rt.write_all(
        b"Each row reads: entries + s = right side, where s is the row's slack. A zero cone holds s at 0, a nonnegative cone at 0 or above;\nin a second-order cone the first s is at least the length of the others. What stands after 0x are the 16 hex digits of a double.\nIn a pattern each line is a row, and + and - are entries above and below 0.\n",
    )?;
    print(
        &rt,
        0,
        b"\n1. Document 01's case A: grid 0 1 2, one Time objective of weight 1. It is small, and it has no feasible point.\n",
    )?;
    print(
        &rt,
        1,
        b"\n2. At rest at both ends: grid 0 1 2.5 4 5, an acceleration row and a jerk row at station 2, all four objectives.\n",
    )?;
    print(
        &rt,
        2,
        b"\n3. Two pieces joined so that stations 1 and 2 coincide: grid 0 1 1.\n",
    )
}
