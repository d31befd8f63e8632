//! Which lines of a text are no IRI references, and why.
ghost use Rattle.std.specs.{Prelude.{◌≡◌, IfOk, map}, Str.Lines.{lines}};
ghost use Rattle.iref_examples.specs.WrongLines.{line_and_fault, wrong_line_text, wrong_lines};

use iref::{Fault, IriRef, Memory};
use std::alloc::Global;
use std::fmt;

/// A line that is no IRI reference, printed as `line 3: invalid host at byte 8: ' '`.
#[derive(Clone, Copy)]
pub struct WrongLine {
    /// The number of the line, counted from 1.
    pub number: usize,
    /// Where the line is wrong, and why.
    pub fault: Fault,
}

impl fmt::Display for WrongLine {
    ghost output = { λ wrong. wrong_line_text (line_and_fault wrong) };

    fn fmt<W: fmt::Write>(&self, f: &mut fmt::Formatter<W>) -> fmt::Result {
        write!(f, "line {}: {}", self.number, self.fault)
    }
}

/// The lines that are no IRI references, in order: of `a`, `b c` and `d`, each on a line, the second.
/// A line ends with LF or with CR LF, where the command `iref` takes CR for a part of the line.
pub fn wrong_lines(alloc: Global, text: &str) -> Result<Vec<WrongLine>, Memory>
    ensures { IfOk result (λ wrong. map line_and_fault wrong.items
        ≡ wrong_lines 1 (lines text.now)) }
{
    let mut wrong = Vec::new(alloc);
    let mut number = 0;
    for line in text.lines() {
        number += 1;
        if let Some(fault) = IriRef::fault(line) {
            wrong.push(WrongLine { number, fault })?;
        }
    }
    Ok(wrong)
}
