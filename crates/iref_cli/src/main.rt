//! Answers the lines of standard input on standard output: `verb<TAB>text..`, a line for a line.
#![tactic(auto)]

use iref_batch::FromStd;
use std::process::ExitCode;

fn main(rt: HostRuntime) -> ExitCode {
    let mut reader = FromStd::new(rt.stdin());
    let mut writer = FromStd::new(rt.stdout());
    let Ok(()) = iref_batch::run(rt.alloc(), &mut reader, &mut writer) else {
        let _ = eprintln!(rt; "iref: io");
        return ExitCode::FAILURE;
    };
    ExitCode::SUCCESS
}
