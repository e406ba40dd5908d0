// The static library for C and Rust: the functions of copp3_c under their own names, with the same clauses. include/copp3_assembly.h declares them.
// One slice for each table and each buffer: the C interface needs it. A crate is a library or a static library, so the exports stand beside copp3_c's functions.
#![tactic(auto)]

ghost use Rattle.std.specs.Prelude.{◌≡◌};
ghost use Rattle.copp3_c.specs.Exported.{objectives_of, owner_record, sized_as, exported, assembled_as};
ghost use Rattle.model.specs.Lent.{at_entry, lent, buffers_before, buffers_after};
ghost use Rattle.model.specs.OwnerAnswers.{owner_of_row, owner_of_column};

use copp3_c::{AnswerRecord, ObjectiveRecords, OwnerRecord};
use model::Job;

// Document 01's sizing: every refusal tested before 19, or the four counts.
#[unsafe(no_mangle)]
pub extern "C" fn copp3_size(
    job: Job,
    records: ObjectiveRecords,
    grid: &[f64],
    acc_rows: &[u32],
    jerk_rows: &[u32],
    amax: &[f64],
    acc_a: &[f64],
    acc_b: &[f64],
    acc_max: &[f64],
    jerk_a: &[f64],
    jerk_b: &[f64],
    jerk_c: &[f64],
    jerk_max: &[f64],
    thermal: &[f64],
    torque_a: &[f64],
    torque_b: &[f64],
    torque_g: &[f64],
    start_roots: &[f64],
    end_roots: &[f64],
    pool: &[f64],
) -> AnswerRecord
    ensures { result ≡ sized_as job.count records.items (lent job (objectives_of records) grid acc_rows jerk_rows amax acc_a acc_b acc_max jerk_a jerk_b jerk_c jerk_max thermal torque_a torque_b torque_g start_roots end_roots pool) }
{
    copp3_c::copp3_size(
        job,
        records,
        grid,
        acc_rows,
        jerk_rows,
        amax,
        acc_a,
        acc_b,
        acc_max,
        jerk_a,
        jerk_b,
        jerk_c,
        jerk_max,
        thermal,
        torque_a,
        torque_b,
        torque_g,
        start_roots,
        end_roots,
        pool,
    )
}

// Document 01's assembly.
#[unsafe(no_mangle)]
pub extern "C" fn copp3_assemble(
    job: Job,
    records: ObjectiveRecords,
    grid: &[f64],
    acc_rows: &[u32],
    jerk_rows: &[u32],
    amax: &[f64],
    acc_a: &[f64],
    acc_b: &[f64],
    acc_max: &[f64],
    jerk_a: &[f64],
    jerk_b: &[f64],
    jerk_c: &[f64],
    jerk_max: &[f64],
    thermal: &[f64],
    torque_a: &[f64],
    torque_b: &[f64],
    torque_g: &[f64],
    start_roots: &[f64],
    end_roots: &[f64],
    pool: &[f64],
    rows: &mut [usize],
    columns: &mut [usize],
    values: &mut [f64],
    right: &mut [f64],
    kinds: &mut [u8],
    dimensions: &mut [usize],
    cost: &mut [f64],
    index: &mut [usize],
) -> AnswerRecord
    ensures { exported result (buffers_after rows columns values right kinds dimensions cost index) ≡ assembled_as job.count records.items (lent job (objectives_of records) grid acc_rows jerk_rows amax acc_a acc_b acc_max jerk_a jerk_b jerk_c jerk_max thermal torque_a torque_b torque_g start_roots end_roots pool) (buffers_before rows columns values right kinds dimensions cost index) }
{
    copp3_c::copp3_assemble(
        job,
        records,
        grid,
        acc_rows,
        jerk_rows,
        amax,
        acc_a,
        acc_b,
        acc_max,
        jerk_a,
        jerk_b,
        jerk_c,
        jerk_max,
        thermal,
        torque_a,
        torque_b,
        torque_g,
        start_roots,
        end_roots,
        pool,
        rows,
        columns,
        values,
        right,
        kinds,
        dimensions,
        cost,
        index,
    )
}

// Request 6: the owner of a row, by an index with a number of objectives.
#[unsafe(no_mangle)]
pub extern "C" fn copp3_owner_of_row(index: &[usize], objectives: usize, row: usize) -> OwnerRecord
    ensures { result ≡ owner_record (owner_of_row (at_entry index) objectives row) }
{
    copp3_c::copp3_owner_of_row(index, objectives, row)
}

// Request 6: the owner of a column.
#[unsafe(no_mangle)]
pub extern "C" fn copp3_owner_of_column(
    index: &[usize],
    objectives: usize,
    column: usize,
) -> OwnerRecord
    ensures { result ≡ owner_record (owner_of_column (at_entry index) objectives column) }
{
    copp3_c::copp3_owner_of_column(index, objectives, column)
}
