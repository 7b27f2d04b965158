// samples/steps.calls, replayed in the gate: its answers stand in the file stdout.
#![tactic(auto)]

fn main(rt: HostRuntime) {
    let mut text = input::large_buffer();
    let n = input::fill(&mut rt.stdin(), &mut text).bytes;
    let _ = replay_loop::replay(&rt, &text[..n], false);
}
