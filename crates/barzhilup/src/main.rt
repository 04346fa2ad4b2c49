// The program `barzhilup`: what it does is in the crate `commands`, which answers how it ended.
#![tactic(auto)]

use host::Host;
use std::process::ExitCode;

fn main(rt: HostRuntime) -> ExitCode {
    let host = Host::new(rt);
    ExitCode::from(commands::barzhilup_main(&host).code())
}
