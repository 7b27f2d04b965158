// The replay program, for files of up to two mebibytes. They stand on its stack, so it wants four of them.
#![tactic(auto)]

// It says nothing of its elements, so that no proof counts them.
fn space() -> [u8; 2097152] {
    [0; 2097152]
}

fn main(rt: HostRuntime) {
    let mut text = space();
    replay_program::run(&rt, &mut text);
}
