// The program, in its folder.
#![tactic(auto)]

use std::process::ExitCode;

fn main(rt: HostRuntime) -> ExitCode {
    replay_files::run_here(&rt)
}
