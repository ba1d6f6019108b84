// [11.2] The runner: `loops.txt`, and `values.txt` where the loops have inputs ([11.5]), run in order 0 on a store of 16,384 cells, all
// 0 ([11.6], [13.16]); the output cells and the writes ([11.7]), or `no,number,line` ([11.8]), on standard output. [16.8] It reads with
// the words of `words.txt`, if there is one.
#![tactic(auto)]

ghost use Rattle.std.specs.Prelude.{◌≡◌, ◌≤◌, length, take};

use std::rt::Files;

fn main(rt: HostRuntime) {
    // One byte more than each may have ([13.18], [13.3]), so that a longer text is seen to be too long.
    let mut words = [0u8; 599];
    let mut loops = [0u8; 65537];
    let mut values = [0u8; 65537];
    let own = files::read(&rt, "words.txt", &mut words);
    let loops_size = files::read_if_there(&rt, "loops.txt", &mut loops);
    let values_size = read_values(&rt, &loops[..loops_size], &mut values);
    let mut store = [0i32; 16384];
    // [13.17] Room for the longest output.
    let mut text = [0u8; 69648];
    let put = match own {
        Some(bytes) => programs::runner_in(
            &words[..bytes],
            &loops[..loops_size],
            &values[..values_size],
            &mut store,
            &mut text,
        ),
        None => programs::runner(
            &loops[..loops_size],
            &values[..values_size],
            &mut store,
            &mut text,
        ),
    };
    files::print(&rt, put, &text);
}

// The bytes of the values file, where these loops want it read.
fn read_values<R: Files>(rt: &R, loops: &[u8], text: &mut [u8; 65537]) -> usize
    ensures { (result ≤ length text.new) × (result ≡ length (take result text.new)) }
{
    if !programs::reads_values(loops) {
        return 0;
    }
    files::read_if_there(rt, "values.txt", text)
}
