// The planner's desk tool. With no argument it plans document 003's example; `ttplan help` names the commands.
#![tactic(auto)]

fn main(rt: HostRuntime) {
    desk::commands::run(&rt);
}
