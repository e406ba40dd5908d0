// Document 01's ledger: fourteen cases, a line for each, with what sizing answers.
#![tactic(auto)]

use model::{Answer, FourCounts};
use std::io;

fn print_answer(rt: &impl Print, answer: Answer) -> io::Result<()> {
    match answer {
        Err(refusal) => {
            let number = refusal.rule.number();
            let place = refusal.place;
            print!(rt; " refused {number} {place}\n")
        }
        Ok(
            FourCounts {
                entries,
                rows,
                cones,
                columns,
            },
        ) => print!(rt; " {entries} {rows} {cones} {columns}\n"),
    }
}

fn main(rt: HostRuntime) -> io::Result<()> {
    // Over numbers: a case goes by its number.
    for i in 0..ledger_cases::count() {
        let letter = [ledger_cases::letter_at(i)];
        rt.write_all(&letter)?;
        print_answer(&rt, ledger_cases::answer_at(i))?;
    }
    Ok(())
}
