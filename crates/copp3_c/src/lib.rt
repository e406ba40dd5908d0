// Sizing, the assembly and the owners of rows and columns for C and Rust. Objectives come as plain records with a kind; include/copp3_assembly.h is the same for C.
// The crate copp3_c_c exports the last four functions.

#![tactic(auto)]

ghost use Rattle.std.specs.Prelude.{◌≡◌, map, ℕ, ◌+◌, ◌^◌, ◌<◌, Ok};
ghost use Rattle.copp3_c.specs.Exported.{objective_of, objectives_of, kind_refusal, answer_record, owner_record, sizing_after, assembly_after, sized_as, exported, assembled_as};
ghost use Rattle.model.specs.Answers.{told, answered};
ghost use Rattle.model.specs.Lent.{at_entry, lent, buffers_before, buffers_after, problem_of, buffers_of, SameBuffers};
ghost use Rattle.model.specs.OwnerAnswers.{told_owner, owner_of_row, owner_of_column};
ghost use Rattle.model.specs.declared.Owner.TheVariants.{ObjectiveNumber};

use model::{
    Acceleration, Answer, Buffers, Column, Jerk, Job, Objective, Owner, OwnerAnswer, Problem,
    Roots, Row, Rule, Torque, Verdict,
};
use std::array::from_fn;

// The kind is a number since the C interface hands over any: 0 Time, 1 ThermalEnergy, 2 TotalVariationTorque, 3 Linear. The parts (start, length) of the pool: scales, or alpha and then beta.
#[repr(C)]
#[derive(Clone, Copy)]
pub struct ObjectiveRecord {
    pub kind: u64,
    pub weight: f64,
    pub start: usize,
    pub len: usize,
    pub start2: usize,
    pub len2: usize,
}

#[repr(C)]
#[derive(Clone, Copy)]
pub struct ObjectiveRecords {
    pub items: [ObjectiveRecord; 16],
}

// number 0: accepted, with the four counts; else a refusal's number and place. A number and no Result: the C interface needs it.
#[repr(C)]
#[derive(Clone, Copy, PartialEq, Eq)]
pub struct AnswerRecord {
    pub number: usize,
    pub place: usize,
    pub entries: usize,
    pub rows: usize,
    pub cones: usize,
    pub columns: usize,
}

// number 0: the owner, 0 standard rows, 1 root stage, 2 + i objective i; else a refusal's number and place. Numbers, as in AnswerRecord.
#[repr(C)]
#[derive(Clone, Copy, PartialEq, Eq)]
pub struct OwnerRecord {
    pub number: usize,
    pub place: usize,
    pub owner: usize,
}

// The objective that a record stands for.
impl From<ObjectiveRecord> for Objective {
    ghost from_gives = { λ r o. o ≡ objective_of r };

    #[tactic(auto, unfolding(crate::specs::Exported::objective_of))]
    fn from(r: ObjectiveRecord) -> Objective {
        match r.kind {
            0 => Objective::Time(r.weight),
            1 => Objective::ThermalEnergy {
                weight: r.weight,
                start: r.start,
                len: r.len,
            },
            2 => Objective::TotalVariationTorque {
                weight: r.weight,
                start: r.start,
                len: r.len,
            },
            _ => Objective::Linear {
                weight: r.weight,
                alpha: r.start,
                alpha_len: r.len,
                beta: r.start2,
                beta_len: r.len2,
            },
        }
    }
}

fn objectives_of(items: &[ObjectiveRecord; 16]) -> [Objective; 16]
    ensures { result ≡ map objective_of items.now }
{
    // Not `items.map(Objective::from)`: it takes 3,480 bytes more of the caller's stack.
    from_fn(|i| Objective::from(items[i]))
}

// Refuses the first record that counts and has an unknown kind.
#[tactic(auto, using(crate::proofs::KindCheck::none_yet, crate::proofs::KindCheck::known_next, crate::proofs::KindCheck::all_known))]
fn kind_check(items: &[ObjectiveRecord; 16], count: usize) -> Verdict
    ensures { result ≡ kind_refusal count items.now }
{
    for (i, r) in items[..count.min(16)].iter().enumerate() {
        Rule::UnknownKind.refuse_if(i, 3 < r.kind)?;
    }
    Ok(())
}

// The number 0 tells of a success; a refusal's is above 0.
impl From<Answer> for AnswerRecord {
    ghost from_gives = { λ a r. r ≡ answer_record (told a) };

    #[tactic(auto, using(model::proofs::Rules::rule_positive), unfolding(crate::specs::Exported::answer_record))]
    fn from(answer: Answer) -> AnswerRecord {
        match answer {
            Ok(counts) => AnswerRecord {
                number: 0,
                place: 0,
                entries: counts.entries,
                rows: counts.rows,
                cones: counts.cones,
                columns: counts.columns,
            },
            Err(refusal) => AnswerRecord {
                number: refusal.rule.number(),
                place: refusal.place,
                entries: 0,
                rows: 0,
                cones: 0,
                columns: 0,
            },
        }
    }
}

// No From, which would be no plainer: 2 + i may pass 64 bits, and a From asks nothing of its callers.
#[tactic(auto, using(crate::proofs::Owners::refused_owner), unfolding(crate::specs::Exported::owner_record))]
fn owner_record(answer: OwnerAnswer) -> OwnerRecord
    requires { (i : ℕ) → answer ≡ Ok (ObjectiveNumber i) → 2 + i < 2 ^ 64 }
    ensures { result ≡ owner_record (told_owner answer) }
{
    let (number, owner) = match answer {
        Ok(Owner::StandardRows) => (0, 0),
        Ok(Owner::RootStage) => (0, 1),
        Ok(Owner::ObjectiveNumber(i)) => (0, 2 + i),
        Err(refusal) => (refusal.number(), 0),
    };
    OwnerRecord {
        number,
        place: 0,
        owner,
    }
}

// Document 01's sizing: every refusal tested before 19, or the four counts. One slice for each table: the C interface needs it.
#[tactic(auto, unfolding(crate::specs::Exported::sizing_after))]
pub fn copp3_size(
    job: Job,
    records: ObjectiveRecords,
    grid: &[f64],
    acc_rows: &[u32],
    jerk_rows: &[u32],
    amax: &[f64],
    acc_a: &[f64],
    acc_b: &[f64],
    acc_max: &[f64],
    jerk_a: &[f64],
    jerk_b: &[f64],
    jerk_c: &[f64],
    jerk_max: &[f64],
    thermal: &[f64],
    torque_a: &[f64],
    torque_b: &[f64],
    torque_g: &[f64],
    start_roots: &[f64],
    end_roots: &[f64],
    pool: &[f64],
) -> AnswerRecord
    ensures { result ≡ sized_as job.count records.items (lent job (objectives_of records) grid acc_rows jerk_rows amax acc_a acc_b acc_max jerk_a jerk_b jerk_c jerk_max thermal torque_a torque_b torque_g start_roots end_roots pool) }
{
    // Before the problem is made: a refused kind costs no more than the test.
    if let Err(refusal) = kind_check(&records.items, job.count) {
        return AnswerRecord::from(Err(refusal));
    }
    let problem = Problem {
        job,
        objectives: objectives_of(&records.items),
        grid,
        acceleration: Acceleration {
            rows: acc_rows,
            a: acc_a,
            b: acc_b,
            max: acc_max,
        },
        jerk: Jerk {
            rows: jerk_rows,
            a: jerk_a,
            b: jerk_b,
            c: jerk_c,
            max: jerk_max,
        },
        amax,
        thermal,
        torque: Torque {
            a: torque_a,
            b: torque_b,
            g: torque_g,
        },
        roots: Roots {
            start: start_roots,
            end: end_roots,
        },
        pool,
    };
    AnswerRecord::from(sizing::size(&problem))
}

// Document 01's assembly. One slice for each table and each buffer, as there.
#[tactic(auto, unfolding(crate::specs::Exported::assembly_after))]
pub fn copp3_assemble(
    job: Job,
    records: ObjectiveRecords,
    grid: &[f64],
    acc_rows: &[u32],
    jerk_rows: &[u32],
    amax: &[f64],
    acc_a: &[f64],
    acc_b: &[f64],
    acc_max: &[f64],
    jerk_a: &[f64],
    jerk_b: &[f64],
    jerk_c: &[f64],
    jerk_max: &[f64],
    thermal: &[f64],
    torque_a: &[f64],
    torque_b: &[f64],
    torque_g: &[f64],
    start_roots: &[f64],
    end_roots: &[f64],
    pool: &[f64],
    rows: &mut [usize],
    columns: &mut [usize],
    values: &mut [f64],
    right: &mut [f64],
    kinds: &mut [u8],
    dimensions: &mut [usize],
    cost: &mut [f64],
    index: &mut [usize],
) -> AnswerRecord
    ensures { exported result (buffers_after rows columns values right kinds dimensions cost index) ≡ assembled_as job.count records.items (lent job (objectives_of records) grid acc_rows jerk_rows amax acc_a acc_b acc_max jerk_a jerk_b jerk_c jerk_max thermal torque_a torque_b torque_g start_roots end_roots pool) (buffers_before rows columns values right kinds dimensions cost index) }
{
    // As in copp3_size.
    if let Err(refusal) = kind_check(&records.items, job.count) {
        return AnswerRecord::from(Err(refusal));
    }
    // A function that makes a Problem has the same 20 parameters and each call the same 20 arguments, so it is no plainer.
    let problem = Problem {
        job,
        objectives: objectives_of(&records.items),
        grid,
        acceleration: Acceleration {
            rows: acc_rows,
            a: acc_a,
            b: acc_b,
            max: acc_max,
        },
        jerk: Jerk {
            rows: jerk_rows,
            a: jerk_a,
            b: jerk_b,
            c: jerk_c,
            max: jerk_max,
        },
        amax,
        thermal,
        torque: Torque {
            a: torque_a,
            b: torque_b,
            g: torque_g,
        },
        roots: Roots {
            start: start_roots,
            end: end_roots,
        },
        pool,
    };
    let mut out = Buffers {
        rows,
        columns,
        values,
        right,
        kinds,
        dimensions,
        cost,
        index,
    };
    AnswerRecord::from(assembly::assemble(&problem, &mut out))
}

// Request 6: the owner of a row, by an index with a number of objectives. Here a row number is plain for the last time.
pub fn copp3_owner_of_row(index: &[usize], objectives: usize, row: usize) -> OwnerRecord
    ensures { result ≡ owner_record (owner_of_row (at_entry index) objectives row) }
{
    let a = owners::owner_of_row(index, objectives, Row { at: row });
    owner_record(a)
}

// Request 6: the owner of a column.
pub fn copp3_owner_of_column(index: &[usize], objectives: usize, column: usize) -> OwnerRecord
    ensures { result ≡ owner_record (owner_of_column (at_entry index) objectives column) }
{
    let a = owners::owner_of_column(index, objectives, Column { at: column });
    owner_record(a)
}
