// What a whole script answers: its lines one by one, then the report.
ghost use Rattle.script.specs.Lines.{Gives, meaning};
ghost use Rattle.script.specs.Transcripts.{adding, answer_line, error_line, final_state, output_of, reply, state_of, transcript as transcript_of};
ghost use Rattle.script.specs.Texts.{error_text, report_text};
ghost use Rattle.script.specs.Words.{newline};
ghost use Rattle.script.specs.declared.line.LineError.TheVariants.{Memory as memory};
ghost use Rattle.std.specs.Prelude.{◌≡◌, [], ◌∷◌, ◌++◌, IfOk, string_bytes, OnOk, ◌≢◌};

use crate::answer::{Answer, answer_to};
use crate::line::{LineError, parse};
use crate::report::{LineCounts, Report};
use std::alloc::{AllocError, Global};
use std::fmt::Write;

// What a line answers, if it asks for anything, or why it is none of the script's.
pub fn answer_of_line<'a>(heap: Global, line: &'a str) -> Result<Option<Answer>, LineError<'a>>
    ensures { Gives (λ answer. answer) result (reply (meaning line.now)) }
{
    let command = parse(heap, line)?;
    Ok(answer_to(&command))
}

// What was written so far, and the counts of the lines.
#[derive(Debug, PartialEq, Eq, Drop)]
pub struct Transcript {
    pub text: String,
    pub lines: LineCounts,
}

impl Transcript {
    fn add_answer(&mut self, number: usize, answer: Option<Answer>) -> Result<(), AllocError>
        ensures { OnOk result (state_of self.new ≡ adding (answer_line number answer) (state_of self.old)) }
    {
        let Some(answer) = answer else {
            return Ok(());
        };
        self.lines.carried_out = self.lines.carried_out.saturating_add(1);
        // Writing to a string fails for want of memory alone, here and below.
        writeln!(self.text, "{number}: {answer}").map_err(|_| AllocError)
    }

    // Want of memory is no mistake of the line.
    fn add_error(&mut self, number: usize, error: LineError<'_>) -> Result<(), AllocError>
        ensures { OnOk result ((error.entry ≢ memory) × (state_of self.new ≡ adding (error_line number (error_text error.entry)) (state_of self.old))) }
    {
        if error == LineError::Memory {
            return Err(AllocError);
        }
        self.lines.errors = self.lines.errors.saturating_add(1);
        writeln!(self.text, "{number}: error {error}").map_err(|_| AllocError)
    }

    // Carries out the line with a number.
    pub fn carry_out(&mut self, heap: Global, number: usize, line: &str) -> Result<(), AllocError>
        ensures { OnOk result (state_of self.new ≡ adding (output_of number (meaning line.now)) (state_of self.old)) }
    {
        match answer_of_line(heap, line) {
            Ok(answer) => self.add_answer(number, answer),
            Err(error) => self.add_error(number, error),
        }
    }

    // The report comes behind all lines.
    fn add_report(&mut self, report: Report) -> Result<(), AllocError>
        ensures text { OnOk result (string_bytes self.new.text ≡ string_bytes self.old.text ++ (report_text report ++ (newline ∷ []))) }
        ensures lines { self.new.lines ≡ self.old.lines }
    {
        writeln!(self.text, "{report}").map_err(|_| AllocError)
    }
}

// The lines of a script, each carried out after the one before it.
fn carry_out(heap: Global, script: &str) -> Result<Transcript, AllocError>
    ensures { IfOk result (λ t. state_of t ≡ final_state script.now) }
{
    let mut transcript = Transcript {
        text: String::new(heap),
        lines: LineCounts::default(),
    };
    for (index, line) in script.split('\n').enumerate() {
        transcript.carry_out(heap, index + 1, line)?;
    }
    Ok(transcript)
}

// Carries out a script: what it writes, with the report at the end, and the counts of its lines.
pub fn rehearse(heap: Global, script: &str) -> Result<Transcript, AllocError>
    ensures text { IfOk result (λ t. string_bytes t.text ≡ transcript_of script.now) }
    ensures lines { IfOk result (λ t. t.lines ≡ (final_state script.now).lines_counted) }
{
    let mut transcript = carry_out(heap, script)?;
    let report = Report::from(transcript.lines);
    transcript.add_report(report)?;
    Ok(transcript)
}
