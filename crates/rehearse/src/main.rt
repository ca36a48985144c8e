// Carries out a script from a file or from standard input.
#![tactic(auto)]

use anyhow::anyhow;
use script::{Source, USAGE, run, source_of};
use std::io::Read;
use std::process::ExitCode;
use std::{env, fs};

// Both programs over scripts have it: shared, it would be a public function that no contract could say anything of.
fn run_input(rt: &HostRuntime) -> anyhow::Result<()> {
    let mut script = Vec::new(rt.alloc());
    rt.stdin().read_to_end(&mut script)?;
    run(rt, script.as_slice())
}

fn run_file(rt: &HostRuntime, name: &str) -> anyhow::Result<()> {
    match fs::read(rt, name) {
        Ok(script) => run(rt, script.as_slice()),
        Err(error) => {
            eprintln!(rt; "rehearse: {name}: {error}")?;
            Err(error.into())
        }
    }
}

fn run_arguments(rt: &HostRuntime) -> anyhow::Result<()> {
    let arguments: Vec<String> = env::args(rt)?.skip(1).collect(rt.alloc())?;
    match source_of(arguments.as_slice()) {
        Ok(Source::Help) => {
            print!(rt; "{USAGE}")?;
            Ok(())
        }
        Ok(Source::Input) => run_input(rt),
        Ok(Source::File(name)) => run_file(rt, name),
        Err(error) => {
            eprintln!(rt; "rehearse: {error} (see rehearse --help)")?;
            Err(anyhow!("wrong arguments"))
        }
    }
}

// The status says that something went wrong. What was wrong with the script, its file or the arguments has been told by then.
fn main(rt: HostRuntime) -> ExitCode {
    match run_arguments(&rt) {
        Ok(()) => ExitCode::SUCCESS,
        Err(_) => ExitCode::FAILURE,
    }
}

#[cfg(test)]
mod tests {
    use script::{LineCounts, LineError, Transcript, answer_of_line, rehearse};
    use std::test::Fail;

    const SCRIPT: &str = "frobnicate 1
read 0G
number 012

number14
# read
\tread 00
read 000009 00
read 00 \tFF";

    const TRANSCRIPT: &str = "1: error unknown word frobnicate
2: error octets are pairs of hexadecimal digits: 0G
3: error octets are pairs of hexadecimal digits: 012
5: error octets missing
7: error unknown word \tread
8: message ANM call 0 leg 0
9: error octets are pairs of hexadecimal digits: \tFF

lines carried out 1, refused 0, errors 6
calls opened 0, cleared 0, diversions 0, notes 0
waiting 0
";

    #[test]
    fn errors_are_told_and_the_script_goes_on(rt: HostRuntime) -> Result<(), Fail> {
        let transcript = rehearse(rt.alloc(), SCRIPT)?;
        assert_eq!(rt; transcript.lines.errors, 6);
        assert_eq!(rt; transcript.text.as_str(), TRANSCRIPT);
        Ok(())
    }

    #[test]
    fn a_line_is_carried_out_under_its_number(rt: HostRuntime) -> Result<(), Fail> {
        let mut transcript = Transcript {
            text: String::new(rt.alloc()),
            lines: LineCounts::default(),
        };
        transcript.carry_out(rt.alloc(), 8, "read 000009 00")?;
        transcript.carry_out(rt.alloc(), 9, "")?;
        assert_eq!(rt; transcript.lines.carried_out, 1);
        assert_eq!(rt; transcript.lines.errors, 0);
        assert_eq!(rt; transcript.text.as_str(), "8: message ANM call 0 leg 0\n");
        Ok(())
    }

    // Does a line answer anything?
    fn answers<'a>(rt: &HostRuntime, line: &'a str) -> Result<bool, LineError<'a>> {
        Ok(answer_of_line(rt.alloc(), line)?.is_some())
    }

    #[test]
    fn a_line_is_answered_or_its_mistake(rt: HostRuntime) {
        assert_eq!(rt; answers(&rt, "read 000009 00"), Ok(true));
        assert_eq!(rt; answers(&rt, "# read"), Ok(false));
        assert_eq!(rt; answers(&rt, "read 0"), Err(LineError::NotOctets("0")));
    }
}
