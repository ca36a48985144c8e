// The report at the end of a script.
ghost use Rattle.script.specs.Texts.{calls_text, lines_text, report_of, report_text};
ghost use Rattle.std.specs.Prelude.{◌≡◌, Some};

use std::fmt;

// How many lines were carried out, how many of these were refused, and how many lines were none of the script's.
#[derive(Clone, Copy, Debug, Default, PartialEq, Eq)]
pub struct LineCounts {
    pub carried_out: u64,
    pub refused: u64,
    pub errors: u64,
}

// How many calls were opened and cleared, how many diverted initial addresses were sent and how many notes told.
#[derive(Clone, Copy, Debug, Default, PartialEq, Eq)]
pub struct CallCounts {
    pub opened: u64,
    pub cleared: u64,
    pub diversions: u64,
    pub notes: u64,
}

// What a script came to, and how many envelopes still wait.
#[derive(Clone, Copy, Debug, Default, PartialEq, Eq)]
pub struct Report {
    pub lines: LineCounts,
    pub calls: CallCounts,
    pub waiting: u64,
}

// The report of a script without calls.
impl From<LineCounts> for Report {
    ghost from_gives = { λ lines report. report ≡ report_of lines };

    fn from(lines: LineCounts) -> Report {
        Report {
            lines,
            ..Report::default()
        }
    }
}

impl fmt::Display for LineCounts {
    ghost output = { λ c. Some (lines_text c) };

    fn fmt<W: fmt::Write>(&self, f: &mut fmt::Formatter<W>) -> fmt::Result {
        let LineCounts {
            carried_out,
            refused,
            errors,
        } = *self;
        write!(
            f,
            "lines carried out {carried_out}, refused {refused}, errors {errors}"
        )
    }
}

impl fmt::Display for CallCounts {
    ghost output = { λ c. Some (calls_text c) };

    fn fmt<W: fmt::Write>(&self, f: &mut fmt::Formatter<W>) -> fmt::Result {
        let CallCounts {
            opened,
            cleared,
            diversions,
            notes,
        } = *self;
        write!(
            f,
            "calls opened {opened}, cleared {cleared}, diversions {diversions}, notes {notes}"
        )
    }
}

// An empty line comes first.
impl fmt::Display for Report {
    ghost output = { λ r. Some (report_text r) };

    fn fmt<W: fmt::Write>(&self, f: &mut fmt::Formatter<W>) -> fmt::Result {
        let Report {
            lines,
            calls,
            waiting,
        } = *self;
        write!(f, "\n{lines}\n{calls}\nwaiting {waiting}")
    }
}
