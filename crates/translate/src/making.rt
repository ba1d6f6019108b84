// The loops of a plan's rows ([6.1]): [10.4] to [10.8], [10.10], [18.15], [10.11] and [10.12].
ghost use Rattle.std.specs.Prelude.{◌≡◌, ℕ, ◌≤◌, ◌<◌, length, get_or};
ghost use Rattle.refusals.specs.Answers.{unless_refused};
ghost use Rattle.words.specs.Kinds.{rows_of};
ghost use Rattle.lines.specs.Lent.{TableInto};
ghost use Rattle.meaning.specs.Terms.{Plan};
ghost use Rattle.meaning.specs.Rows.{all_cells_rows};
ghost use Rattle.syntax.specs.Reading.{plan_of};
ghost use Rattle.type_table.specs.Table.{Sound};
ghost use Rattle.emission.specs.Table.{put_rows};
ghost use Rattle.loops.specs.Check.{check_table};
ghost use Rattle.typing.specs.Check.{check_plan};
ghost use Rattle.typing.specs.Entry.{answered, check_plan_rows};
ghost use Rattle.row_typing.specs.Typed.{PlanStands};
ghost use Rattle.translate.specs.Entry.{made_rows, make_plan};
ghost use Rattle.translate.specs.Making.{cells_at, PlanNoted, SomePlanNoted, by_check};

use clauses::State;
use emission::references;
use emission::rows::Rows;
use emission::sources::{Made, Source};
use refusals::Refusal;
use row_translation::terms::TermRows;
use row_translation::writes;
use row_typing::TypedPlan;
use words::kinds::*;

// Node 0 stands for nothing; node 1 is the output.
const OUTPUT: usize = 1;

// Rows `cells`, one for the type at each of these places.
fn put_inputs(types: &[u64], places: &[u16], rows: &mut Rows)
    requires { Sound types.now (length types.now) × ((k : ℕ) → k < length places.now → get_or places.now k 0 < length types.now) }
    ensures { rows.new ≡ put_rows (all_cells_rows (cells_at types.now places.now)) rows.old }
{
    for &place in places {
        rows.put_cells(types, WORD_CELLS, place as usize);
    }
}

// [6.1] The loops of a plan whose rows and types are these, from the first row on.
fn put_loops(rows: TermRows<'_>, types: &[u64], plan: TypedPlan, made: &mut Made)
    requires { SomePlanNoted rows.kinds.now rows.numbers.now rows.column.now types.now plan.inputs plan.row plan.term.place }
    ensures { (P : Plan) → PlanNoted rows.entry.kinds.now rows.entry.numbers.now rows.entry.column.now types.now plan.inputs plan.row plan.term.place P
        → made.new.rows ≡ put_rows (made_rows P) made.old.rows }
{
    let count = rows.head().number;
    made.rows.put_count(WORD_LOOPS, count as u16);
    put_inputs(types, &plan.inputs[..count], &mut made.rows);
    made.rows.put_cells(types, WORD_CELLS, plan.term.place);
    references::push_stored(&mut made.references, OUTPUT, WORD_OUT, 0, plan.term.place);
    let source = Source {
        types,
        plan: rows.numbers,
    };
    let state = State {
        counters: 0,
        regions: 0,
        variables: [0; 16],
        count: 0,
        len: OUTPUT + 1,
    };
    writes::write_term(rows.from(plan.row), source, made, OUTPUT, state);
}

// [18.15] and [10.11], put to made rows by the check of loops, which counts their writes ([7.3]). No other of its questions turns them away, and
// question 18 names no line of them.
fn ask_made(kinds: &[u8], numbers: &[i32]) -> Result<usize, Refusal>
    ensures { result ≡ by_check (length kinds.now) (check_table (rows_of kinds.now numbers.now)) }
{
    match loops::check_table(kinds, numbers) {
        Ok(_) => Ok(kinds.len()),
        Err(Refusal::LanesInside(_)) => Err(Refusal::LanesInside(0)),
        Err(refusal) => Err(refusal),
    }
}

// [18.15], [10.11] and [10.12] of made rows; then they are put at the front of the lent table.
fn hand_over(
    kinds: &[u8],
    numbers: &[i32],
    lentkinds: &mut [u8],
    lentnumbers: &mut [i32],
) -> Result<usize, Refusal>
    requires { length kinds.now ≡ length numbers.now }
    ensures { TableInto (by_check (length kinds.now) (check_table (rows_of kinds.now numbers.now))) (rows_of kinds.now numbers.now)
        lentkinds.old lentnumbers.old result lentkinds.new lentnumbers.new }
{
    ask_made(kinds, numbers)?;
    lines::hand_over(kinds, numbers, lentkinds, lentnumbers)
}

// Questions 7, 8, 10, 18, 11 and 12 of rows that walk well.
fn make_plan(
    kinds: &[u8],
    numbers: &[i32],
    lentkinds: &mut [u8],
    lentnumbers: &mut [i32],
) -> Result<usize, Refusal>
    requires { (length kinds.now ≡ length numbers.now) × (length kinds.now ≤ 256) × ((P : Plan) × PlanStands kinds.now numbers.now P) }
    ensures { (P : Plan) → PlanStands kinds.now numbers.now P
        → TableInto (unless_refused (answered (length kinds.now) (check_plan P)) (make_plan P)) (made_rows P)
        lentkinds.old lentnumbers.old result lentkinds.new lentnumbers.new }
{
    let mut types = [0u64; 512];
    let mut column = [0u16; 256];
    let plan = row_typing::type_plan(kinds, numbers, &mut types, &mut column)?;
    let column = &column;
    let rows = TermRows {
        kinds,
        numbers,
        column,
    };
    let mut made = Made {
        references: [0; 1024],
        rows: Rows::new(),
    };
    put_loops(rows, &types[..plan.term.len], plan, &mut made);
    if made.rows.has_too_many() {
        return Err(Refusal::LoopsLength);
    }
    hand_over(
        made.rows.kinds(),
        made.rows.numbers(),
        lentkinds,
        lentnumbers,
    )
}

// Questions 4 to 8, 10, 18, 11 and 12 of a plan's rows.
pub fn make_rows(
    kinds: &[u8],
    numbers: &[i32],
    lentkinds: &mut [u8],
    lentnumbers: &mut [i32],
) -> Result<usize, Refusal>
    requires { (length kinds.now ≡ length numbers.now) × (length kinds.now ≤ 256) }
    ensures { TableInto (unless_refused (check_plan_rows (rows_of kinds.now numbers.now)) (make_plan (plan_of (rows_of kinds.now numbers.now))))
        (made_rows (plan_of (rows_of kinds.now numbers.now)))
        lentkinds.old lentnumbers.old result lentkinds.new lentnumbers.new }
{
    syntax::walk_plan(kinds, numbers)?;
    make_plan(kinds, numbers, lentkinds, lentnumbers)
}
