// Cases of the file, replayed one part after another.
ghost use Rattle.std.specs.Prelude.{◌≡◌, ◌+◌, ◌≤◌, length, get_or};
ghost use Rattle.memory.specs.Meaning.{meaning};
ghost use Rattle.store.specs.Entries.{StartsWith};
ghost use Rattle.replay.specs.Recorded.{RunAgrees, RunsAgree, RollAgrees, ColumnAgrees, ColumnsAgree, told_at};
ghost use Rattle.replay.specs.Agreement.{Compared, StepAgrees, CaseStepped};

use crate::compare::{is_same_column, is_same_roll, is_same_run};
use crate::recorded::{Step, cut, short_at};
use run::Ran;

// What a run gave, beside the numbers and answers at `at`.
fn compare_run(file: &[u8], at: usize, ran: Ran, out: &[u8]) -> Step
    requires at_in_bounds { at ≤ length file.now }
    requires written_in_bounds { ran.written ≤ length out.now }
    ensures { Compared file.now at ran out.now result }
{
    if file.len() - at < 7 {
        return cut(file);
    }
    let written = short_at(file, at + 5);
    if file.len() - at - 7 < written {
        return cut(file);
    }
    Step {
        at: at + 7 + written,
        agrees: is_same_run(file, at, ran, out),
    }
}

// The run whose tape stands at `at`.
fn replay_run(words: &mut [u32], file: &[u8], at: usize, out: &mut [u8]) -> Step
    requires { at ≤ length file.now }
    ensures { StepAgrees file.now words.old words.new result (λ e. RunAgrees file.now at (meaning words.old) e (meaning words.new)) }
{
    if file.len() - at < 4 {
        return cut(file);
    }
    let tape = at + 4;
    let length = short_at(file, at);
    let room = short_at(file, at + 2);
    if file.len() - tape < length {
        return cut(file);
    }
    if out.len() < room {
        return cut(file);
    }
    let end = tape + length;
    let ran = store::run(words, &file[tape..end], &mut out[..room]);
    compare_run(file, end, ran, out)
}

fn replay_runs(words: &mut [u32], file: &[u8], at: usize, runs: u8, out: &mut [u8]) -> Step
    requires { at ≤ length file.now }
    ensures { StepAgrees file.now words.old words.new result (λ e. RunsAgree file.now at (meaning words.old) runs e (meaning words.new)) }
{
    let mut next = at;
    let mut agrees = true;
    for done in 0..runs {
        let step = replay_run(words, file, next, out);
        next = step.at;
        agrees &= step.agrees;
    }
    Step { at: next, agrees }
}

fn replay_roll(words: &[u32], file: &[u8], at: usize, out: &mut [u8]) -> Step
    requires { at ≤ length file.now }
    ensures { StepAgrees file.now words.now words.now result (λ e. RollAgrees file.now at (meaning words.now) e) }
{
    if file.len() - at < 2 {
        return cut(file);
    }
    let start = at + 2;
    let length = short_at(file, at);
    if file.len() - start < length {
        return cut(file);
    }
    let end = start + length;
    let rolled = store::roll(words, out);
    Step {
        at: end,
        agrees: is_same_roll(&file[start..end], rolled, out),
    }
}

// One kind's column: its entities, and then its values, each of `width` bytes.
fn replay_column(words: &[u32], file: &[u8], at: usize, width: u8) -> Step
    requires { at ≤ length file.now }
    ensures { StepAgrees file.now words.now words.now result (λ e. ColumnAgrees file.now at width (meaning words.now) e) }
{
    if file.len() - at < 3 {
        return cut(file);
    }
    let start = at + 3;
    let kind = file[at];
    let length = short_at(file, at + 1);
    let size = width as usize * length;
    if file.len() - start < 8 * length + size {
        return cut(file);
    }
    let middle = start + 8 * length;
    let end = middle + size;
    let entities = is_same_column(words, kind, false, length, &file[start..middle]);
    let values = is_same_column(words, kind, true, length, &file[middle..end]);
    Step {
        at: end,
        agrees: entities & values,
    }
}

fn replay_columns(words: &[u32], file: &[u8], at: usize, width: u8) -> Step
    requires { at ≤ length file.now }
    ensures { StepAgrees file.now words.now words.now result (λ e. ColumnsAgree file.now (at + 1) width (meaning words.now) (get_or file.now at 0) e) }
{
    if file.len() == at {
        return cut(file);
    }
    let mut next = at + 1;
    let mut agrees = true;
    for done in 0..file[at] {
        let step = replay_column(words, file, next, width);
        next = step.at;
        agrees &= step.agrees;
    }
    Step { at: next, agrees }
}

// A start as the case's head at `at` tells it.
fn start_case(words: &mut [u32], file: &[u8], at: usize) -> u8
    requires { at + 5 ≤ length file.now }
    ensures { StartsWith (told_at file.now at) words.old words.new result }
{
    let n = short_at(file, at);
    let k = file[at + 2] as usize;
    let width = file[at + 3] as usize;
    store::start_with(words, n, k, width, false)
}

// The case at `at`: a start, its runs, and then the roll and every column.
pub fn replay_case(words: &mut [u32], file: &[u8], at: usize, out: &mut [u8]) -> Step
    requires words_len { length words.old ≡ 8192 }
    requires at_in_bounds { at ≤ length file.now }
    ensures { CaseStepped file.now at result }
{
    if file.len() - at < 5 {
        return cut(file);
    }
    let number = start_case(words, file, at);
    let runs = replay_runs(words, file, at + 5, file[at + 4], out);
    let roll = replay_roll(words, file, runs.at, out);
    let columns = replay_columns(words, file, roll.at, file[at + 3]);
    Step {
        at: columns.at,
        agrees: (number == 0) & runs.agrees & roll.agrees & columns.agrees,
    }
}
