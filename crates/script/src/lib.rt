// The lines of a rehearsal script: what each says, and what it answers.
#![tactic(auto)]

mod answer;
mod arguments;
mod display;
mod line;
mod program;
mod report;
mod transcript;
mod words;

pub use answer::{Answer, answer_to};
pub use arguments::{ArgumentError, Source, source_of};
pub use line::{Command, LineError, parse};
pub use program::{USAGE, run};
pub use report::LineCounts;
pub use transcript::{Transcript, answer_of_line, rehearse};
pub use words::octets;
