//! The program `sqlkeep` over the plain store, only for tests.
#![tactic(auto)]

use iv_program::{Std, run_program};
use iv_session::Session;
use iv_store_plain::PlainStore;
use std::io;
use std::process::ExitCode;

fn main(rt: HostRuntime) -> io::Result<ExitCode> {
    let mut writer = Std::new(rt.stdout());
    let mut faults = Std::new(rt.stderr());
    let status = run_program::<Session<PlainStore>, _, _, _>(&rt, &mut writer, &mut faults);
    Ok(ExitCode::from(status))
}
