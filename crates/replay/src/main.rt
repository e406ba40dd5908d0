// Replays the list on standard input, of any length, in pieces. For each group of cases it writes a
// line: the group's letter, the number of cases, and in how many of them sizing and the assembly do
// as the list says. A case that the input's end cuts off, or that is longer than a piece, ends the
// run with `cut off`. A read or a write that fails ends the run with its error.
#![tactic(auto)]

ghost use Rattle.std.specs.Prelude.{◌≡◌, ◌+◌, ◌-◌, ◌≤◌, ◌<◌, length, take, drop, IfErr, IfOk, IfSome};

use std::io;
use std::io::Read;

// The group that is being counted.
#[derive(Clone, Copy)]
struct Tally {
    group: u8,
    cases: u64,
    agreeing: u64,
}

// The tally after a piece of the list, and how many bytes of the piece are left, a case that is not whole.
#[derive(Clone, Copy)]
struct Piece {
    tally: Tally,
    rest: usize,
}

// A case that is whole, and where the next one begins. Not the `Replayed` of replay_list, which also tells of a case that is not whole. Every whole case agrees or not, and no other field depends on it: a bool says that as plainly as an enum.
#[derive(Clone, Copy)]
struct Whole {
    group: u8,
    agrees: bool,
    next: usize,
}

// The bytes at hand, which are the first `held` of the list. The array is its own, since nothing here is on a heap.
#[derive(Drop)]
struct Pending {
    list: [u8; 65536],
    held: usize,
    ghost within: { held ≤ length list },
}

impl Tally {
    fn new(group: u8) -> Tally {
        Tally {
            group,
            cases: 0,
            agreeing: 0,
        }
    }

    // Writes the group's line, if it has a case.
    // Not a Display, which writes text alone: a group's letter may be any byte.
    fn print(self, rt: &impl Print) -> io::Result<()> {
        if self.cases == 0 {
            return Ok(());
        }
        rt.write_all(&[self.group, b' '])?;
        let cases = self.cases;
        let agreeing = self.agreeing;
        print!(rt; "{cases} {agreeing}\n")
    }

    // The tally to count a case of a group in: where the group is another, writes the line of the last
    // one and begins at 0.
    fn of_group(self, rt: &impl Print, group: u8) -> io::Result<Tally> {
        if self.group == group {
            return Ok(self);
        }
        self.print(rt)?;
        Ok(Tally::new(group))
    }

    // One case more.
    fn counted(self, agrees: bool) -> Tally {
        Tally {
            cases: self.cases.wrapping_add(1),
            agreeing: self.agreeing.wrapping_add(u64::from(agrees)),
            ..self
        }
    }
}

// The case that begins at `at`, if it is whole. None ends where it begins.
fn whole_case(s: &[u8], at: usize) -> Option<Whole>
    ensures { IfSome result (λ c. (at < c.next) × (c.next ≤ length s.now)) }
{
    let case = replay_list::replay_case(s, at);
    let agrees = case.agrees?;
    if case.next <= at {
        return None;
    }
    Some(Whole {
        group: case.group,
        agrees,
        next: case.next,
    })
}

// Replays the whole cases of a piece. Each begins where the last one's own numbers say that it ends: the `while let` counts no index, and a `for` has no range to go over.
fn replay_piece(rt: &impl Print, s: &[u8], before: Tally) -> io::Result<Piece>
    ensures { IfOk result (λ p. p.rest ≤ length s.now) }
{
    let mut tally = before;
    let mut at = 0;
    while let Some(case) = whole_case(s, at) {
        tally = tally.of_group(rt, case.group)?.counted(case.agrees);
        at = case.next;
    }
    Ok(Piece {
        tally,
        rest: s.len() - at,
    })
}

impl Pending {
    fn new() -> Pending
        ensures { result.held ≡ 0 }
    {
        Pending {
            list: [0; 65536],
            held: 0,
        }
    }

    // Reads on behind the bytes at hand, and answers how many have come.
    fn read_on<R: Read>(&mut self, reader: &mut R) -> io::Result<usize>
        ensures held_value { IfOk result (λ n. self.new.held ≡ self.old.held + n) }
        ensures held_unchanged { IfErr result (λ _. self.new.held ≡ self.old.held) }
        ensures list_value { take self.old.held self.new.list ≡ take self.old.held self.old.list }
    {
        let n = reader.read(&mut self.list[self.held..])?;
        self.held += n;
        Ok(n)
    }

    // Replays the whole cases at hand, and moves the rest to the front.
    fn replay_held(&mut self, rt: &impl Print, tally: Tally) -> io::Result<Tally>
        ensures held_falls { IfOk result (λ _. self.new.held ≤ self.old.held) }
        ensures list_value { IfOk result (λ _. take self.new.held self.new.list ≡ drop (self.old.held - self.new.held) (take self.old.held self.old.list)) }
        ensures unchanged { IfErr result (λ _. self.new ≡ self.old) }
    {
        let piece = replay_piece(rt, &self.list[..self.held], tally)?;
        self.list.copy_within(self.held - piece.rest..self.held, 0);
        self.held = piece.rest;
        Ok(piece.tally)
    }

    // After the input's end: the last group's line, or that a case is cut off.
    fn print_end(&self, rt: &impl Print, tally: Tally) -> io::Result<()> {
        if self.held == 0 {
            tally.print(rt)
        } else {
            rt.write_all(b"cut off\n")
        }
    }
}

// A proved loop has to end, and nothing says that an input does: the turns are more than any run takes.
fn replay<R: Read>(rt: &impl Print, reader: &mut R) -> io::Result<()> {
    let mut tally = Tally::new(0);
    let mut pending = Pending::new();
    for _ in 0..u64::MAX {
        if pending.read_on(reader)? == 0 {
            return pending.print_end(rt, tally);
        }
        tally = pending.replay_held(rt, tally)?;
    }
    Ok(())
}

fn main(rt: HostRuntime) -> io::Result<()> {
    replay(&rt, &mut rt.stdin())
}
