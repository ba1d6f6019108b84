// The cards of [15.1] and [15.2], executed as a user would, over the public entries: P1 to P10, and those without a name. A card's plan
// is read from its file. One line a card, and one for each order of a run: its name and its answer.
#![tactic(auto)]

ghost use Rattle.std.specs.Prelude.{◌≡◌, ◌≤◌, length, take};

use refusals::Refusal;
use std::io;
use std::rt::Files;

fn main(rt: HostRuntime) -> io::Result<()> {
    example_and_groups(&rt)?;
    lengths(&rt)?;
    divisions(&rt)?;
    exchange_and_store(&rt)?;
    sizes_and_minus_zero(&rt)?;
    run_only(&rt)
}

// P1 [15.1] and P2.
fn example_and_groups<R: Files + Print>(rt: &R) -> io::Result<()> {
    translate_card(rt, "P1", "P1.plan")?;
    run_card(rt, "P1", "P1.plan", &mut [4i32, 5, 0, 0], 2, 1)?;
    run_card(
        rt,
        "P2",
        "P2.plan",
        &mut [10i32, 11, 12, 13, 14, 15, 0, 0, 0, 0, 0, 0],
        6,
        3,
    )
}

// P3 and P4.
fn lengths<R: Files + Print>(rt: &R) -> io::Result<()> {
    check_card(rt, "P3", "P3.plan")?;
    check_card(rt, "P4, idx,1", "P4-idx-1.plan")?;
    check_card(rt, "P4, idx,2", "P4-idx-2.plan")
}

// P5 and P6.
fn divisions<R: Files + Print>(rt: &R) -> io::Result<()> {
    run_card(rt, "P5, by 2", "P5-by-2.plan", &mut [0i32], 0, 1)?;
    run_card(rt, "P5, by 0", "P5-by-0.plan", &mut [0i32], 0, 1)?;
    run_card(rt, "P6", "P6.plan", &mut [0i32], 0, 1)
}

// P7 and P8.
fn exchange_and_store<R: Files + Print>(rt: &R) -> io::Result<()> {
    run_card(rt, "P7", "P7.plan", &mut [0i32, 0, 0, 0, 0, 0, 0], 1, 2)?;
    run_card(rt, "P8, store 4", "P1.plan", &mut [4i32, 5, 0, 0], 2, 1)?;
    run_card(rt, "P8, store 3", "P1.plan", &mut [4i32, 5, 0], 2, 1)
}

// P9 and P10.
fn sizes_and_minus_zero<R: Files + Print>(rt: &R) -> io::Result<()> {
    check_card(rt, "P9, 64 x 64", "P9-64.plan")?;
    check_card(rt, "P9, 65 x 64", "P9-65.plan")?;
    check_card(rt, "P10", "P10.plan")
}

// The cards without a name.
fn run_only<R: Files + Print>(rt: &R) -> io::Result<()> {
    check_card(rt, "empty text", "empty.plan")?;
    check_card(rt, "257 lines", "257-lines.plan")?;
    check_card(rt, "arr,4097", "arr-4097.plan")?;
    check_card(rt, "zip of 3 and 4", "zip-3-4.plan")?;
    check_card(rt, "9 levels", "9-levels.plan")
}

// The check of a plan.
fn check_card<R: Files + Print>(rt: &R, name: &str, path: &str) -> io::Result<()> {
    let mut plan = [0u8; 4097];
    let size = files::read_if_there(rt, path, &mut plan);
    let checked = plans::check_text(&plan[..size]);
    print!(rt; "{name}")?;
    match checked {
        Ok(_) => println!(rt; ": passes"),
        Err(refusal) => refuse(rt, refusal),
    }
}

// The bytes of the loops' text made from a plan's file; none where the plan is refused.
fn make_loops<R: Files>(rt: &R, path: &str, text: &mut [u8; 65536]) -> usize
    ensures { (result ≤ length text.new) × (result ≡ length (take result text.new)) }
{
    let mut plan = [0u8; 4097];
    let size = files::read_if_there(rt, path, &mut plan);
    let made = translate::translate_text(&plan[..size], text);
    front(text, made.unwrap_or(0))
}

// So many bytes of a text, or as many as there are.
fn front(text: &[u8], bytes: usize) -> usize
    ensures { (result ≤ length text.now) × (result ≡ length (take result text.now)) }
{
    bytes.min(text.len())
}

// The loops made from a plan: their lines, writes and need.
fn translate_card<R: Files + Print>(rt: &R, name: &str, path: &str) -> io::Result<()> {
    let mut text = [0u8; 65536];
    let size = make_loops(rt, path, &mut text);
    print!(rt; "{name}")?;
    show_loops(rt, &text[..size])
}

// What is counted of loops.
fn show_loops<P: Print>(rt: &P, text: &[u8]) -> io::Result<()> {
    let mut kinds = [0u8; 4096];
    let mut numbers = [0i32; 4096];
    match loops::read_text(text, &mut kinds, &mut numbers) {
        Ok(rows) => print!(rt; ": lines,{rows}")?,
        Err(refusal) => refuse(rt, refusal)?,
    }
    match loops::check_text(text) {
        Ok(counted) => println!(rt; " writes,{} need,{}", counted.writes, counted.need),
        Err(refusal) => refuse(rt, refusal),
    }
}

// The runs of the loops made from a plan, in each order, one after the other on one store; the output is so many cells from the
// first.
fn run_card<R: Files + Print>(
    rt: &R,
    name: &str,
    path: &str,
    store: &mut [i32],
    first: usize,
    count: usize,
) -> io::Result<()> {
    let mut text = [0u8; 65536];
    let size = make_loops(rt, path, &mut text);
    for order in 0..3 {
        run_order(rt, name, &text[..size], order, store, first, count)?;
    }
    Ok(())
}

// The run in one order.
// Seven parameters: the card's name, what is run, in which order, on what, and which cells are shown.
fn run_order<P: Print>(
    rt: &P,
    name: &str,
    text: &[u8],
    order: u32,
    store: &mut [i32],
    first: usize,
    count: usize,
) -> io::Result<()> {
    let ran = run::run_text(text, order, store, &mut []);
    print!(rt; "{name}, order {order}")?;
    match ran {
        Ok(writes) => show_run(rt, store, first, count, writes),
        Err(refusal) => refuse(rt, refusal),
    }
}

// The output cells and the writes.
fn show_run<P: Print>(
    rt: &P,
    store: &[i32],
    first: usize,
    count: usize,
    writes: usize,
) -> io::Result<()> {
    print!(rt; ":")?;
    for number in store.iter().skip(first).take(count) {
        print!(rt; " {number}")?;
    }
    println!(rt; " writes,{writes}")
}

// The rest of a refused card's line.
fn refuse<P: Print>(rt: &P, refusal: Refusal) -> io::Result<()> {
    println!(rt; ": {refusal}")
}
