// The desk tool once more, so that the gate also runs it with arguments, on files of its own: a problem file and a proposal.
#![tactic(auto)]

fn main(rt: HostRuntime) {
    desk::commands::run(&rt);
}
