// The replay program where the stack has one mebibyte: files of up to a quarter of it.
#![tactic(auto)]

// It says nothing of its elements, so that no proof counts them.
fn space() -> [u8; 262144] {
    [0; 262144]
}

fn main(rt: HostRuntime) {
    let mut text = space();
    replay_program::run(&rt, &mut text);
}
