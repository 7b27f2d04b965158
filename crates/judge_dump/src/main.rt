// The judge program: a dump of up to one mebibyte on the standard input, and one line on the standard output.
#![tactic(auto)]

// It says nothing of its elements, so that no proof counts them.
fn space() -> [u8; 1048576] {
    [0; 1048576]
}

fn main(rt: HostRuntime) {
    let mut text = space();
    judge_program::run(&rt, &mut text);
}
