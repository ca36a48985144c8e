// Carries out the stored vectors from standard input.
#![tactic(auto)]

use script::run;
use std::io::Read;
use std::process::ExitCode;

// Both programs over scripts have it: shared, it would be a public function that no contract could say anything of.
fn run_input(rt: &HostRuntime) -> anyhow::Result<()> {
    let mut script = Vec::new(rt.alloc());
    rt.stdin().read_to_end(&mut script)?;
    run(rt, script.as_slice())
}

// The status says that something went wrong; an error that `main` answered would be printed. A function for this match, shared
// with `rehearse`, would be called by a line as long.
fn main(rt: HostRuntime) -> ExitCode {
    match run_input(&rt) {
        Ok(()) => ExitCode::SUCCESS,
        Err(_) => ExitCode::FAILURE,
    }
}
