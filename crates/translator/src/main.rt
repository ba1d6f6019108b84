// [11.1] The translator: a plan on standard input; its loops, or `no,number,line` ([11.8]), on standard output. [16.8] It reads
// and prints with the words of `words.txt`, if there is one.
#![tactic(auto)]

fn main(rt: HostRuntime) {
    // One byte more than a words text may have ([13.18]), so that a longer one is seen to be too long.
    let mut words = [0u8; 599];
    let own = files::read(&rt, "words.txt", &mut words);
    // One byte more than a plan may have ([13.2]), so that a longer text is seen to be too long ([11.1]).
    let mut plan = [0u8; 4097];
    let mut input = rt.reader();
    let size = files::fill(&mut input, &mut plan);
    // Room for the text of all loops that are made.
    let mut text = [0u8; 65536];
    let put = match own {
        Some(bytes) => programs::translator_in(&words[..bytes], &plan[..size], &mut text),
        None => programs::translator(&plan[..size], &mut text),
    };
    files::print(&rt, put, &text);
}
