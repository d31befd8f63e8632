//! What is done with each line of an input that is one text.
ghost use Rattle.std.specs.{List.Sorted.{IsPermutation, IsSorted, IsStable}, Ordering.{on}};
ghost use Rattle.std.specs.Prelude.{◌≡◌, ◌++◌, [], Option, None, Some, IfOk, MatchResult, OnErr, OnOk, false, map};
ghost use Rattle.std.specs.Prelude.{if◌then◌else◌};
ghost use Rattle.hex.specs.Hex.{encode_lower};
ghost use Rattle.iref.specs.{Canonical.{canonical_text}, Characters.{iri_chars}, Faults.{fault_of_reference}};
ghost use Rattle.iref.specs.{Key.{key, key_cmp}, Lists.{key_of_text}, Rules.{Text}, SortKey.{sort_key}};
ghost use Rattle.iref.specs.{Reference.{ReferenceValue, spell}, Relativized.{relativized}, Resolution.{resolved}};
ghost use Rattle.iref.specs.SortPrefix.{sort_prefix};
ghost use Rattle.iref_batch.specs.{Gathering.{Extends}, Runs.{with_newline}};
ghost use Rattle.iref_reference.specs.References.{key_of_reference, reference_text, reference_value};
ghost use Rattle.iref_tool.specs.Jobs.{Outcome, Written, EndsBy, SeesMore, answer_line, fault_in, is_below};
ghost use Rattle.iref_tool.specs.Jobs.{Gathers, gathered, has_seen, lines_in, sort_outcome};
ghost use Rattle.iref_tool.specs.Jobs.{of_iri, of_reference, or_unreached, unless_fault};
ghost use Rattle.iref_tool.specs.Words.{ReadsText};
ghost use Rattle.iref_tool.specs.declared.jobs.LineFault.TheVariants as line_fault;

use crate::read::in_rule;
use hex::encode;
use iref::chars::IriChars;
use iref::iri::{Iri, IriRef, sorted};
use iref::rules::HeldRule;
use iref::uri::{Uri, UriRef};
use iref::{Fault, Memory, SortKey};
use iref_batch::buffer::push_line;
use iref_batch::cut_at;
use iref_component::faults::HasFault;
use iref_fault::fault::text_of_bytes;
use iref_reference::borrowed::Reference;
use std::alloc::Global;
use std::collections::BTreeSet;

/// Why a line has no answer.
#[derive(Clone, Copy)]
pub enum LineFault {
    /// It is outside its rule.
    Invalid(Fault),
    /// No reference resolves to it.
    NoReference,
    /// Memory was refused.
    Memory,
}

impl From<Memory> for LineFault {
    ghost from_gives = { λ _ fault. fault ≡ line_fault.Memory };

    fn from(_error: Memory) -> Self {
        LineFault::Memory
    }
}

/// A job that is done with each line.
pub trait Job {
    /// What it makes of a line.
    ghost outcome: { Self → Text → Outcome };

    /// How it goes on after a line that it has answered, and after one that it has not.
    ghost goes_on: { Self → Option Text → Self → Type 0 } = { λ old _ new. new ≡ old };

    /// Adds what is written for the line.
    fn answer(&mut self, line: &[u8], out: &mut Vec<u8>) -> Result<(), LineFault>
        ensures outcome { EndsBy (outcome self.old line.now) out.old.items out.new.items result }
        ensures next { MatchResult result (λ _. goes_on self.old (Some line.now) self.new)
            (λ _. goes_on self.old None self.new) };
}

impl From<Fault> for LineFault {
    ghost from_gives = { λ fault why. why ≡ line_fault.Invalid fault };

    fn from(fault: Fault) -> Self {
        LineFault::Invalid(fault)
    }
}

// The line as a reference of the rule: of all references of IRIs, or of IRIs.
fn read<R: HeldRule + HasFault>(line: &[u8]) -> Result<Reference<'_, R, IriChars>, Fault>
    ensures { ReadsText (R.fault_of iri_chars line.now) line.now result }
{
    in_rule(text_of_bytes(line)?)
}

// The line as a reference of IRIs.
fn reference(line: &[u8]) -> Result<IriRef<'_>, Fault>
    ensures { ReadsText (fault_of_reference iri_chars line.now) line.now result }
{
    read(line)
}

/// Whether the line follows its answer, behind a TAB.
#[derive(Clone, Copy)]
pub struct Keep(pub bool);

impl Keep {
    // Adds an answer.
    fn push(self, answer: &[u8], line: &[u8], out: &mut Vec<u8>) -> Result<(), Memory>
        ensures ok { OnOk result (out.new.items
            ≡ out.old.items ++ answer_line self.0 line.now answer.now) }
        ensures err { OnErr result (Extends out.old.items out.new.items) }
    {
        if !self.0 {
            return push_line(out, answer);
        }
        out.extend_from_slice(answer)?;
        out.push(b'\t')?;
        push_line(out, line)
    }
}

/// Finds the lines that are outside a rule: that of IRI references, or of those with the characters
/// of URIs alone, or with a scheme.
#[derive(Clone, Copy)]
pub struct Check {
    pub uri: bool,
    pub absolute: bool,
}

impl Job for Check {
    ghost outcome = { λ check line.
        unless_fault (fault_in check.uri check.absolute line) (Written []) };

    fn answer(&mut self, line: &[u8], _out: &mut Vec<u8>) -> Result<(), LineFault> {
        let fault = match (self.uri, self.absolute) {
            (false, false) => IriRef::fault_of_bytes(line),
            (false, true) => Iri::fault_of_bytes(line),
            (true, false) => UriRef::fault_of_bytes(line),
            (true, true) => Uri::fault_of_bytes(line),
        };
        match fault {
            None => Ok(()),
            Some(fault) => Err(LineFault::Invalid(fault)),
        }
    }
}

/// Writes canonical texts.
#[derive(Drop)]
pub struct Canonical {
    /// Whether each line follows its text.
    pub keep: Keep,
    // The canonical text of a line that has another spelling.
    buffer: String,
}

impl Canonical {
    /// With each line behind its text, or without.
    pub fn new(alloc: Global, keep: Keep) -> Self
        ensures { result.keep ≡ keep }
    {
        let buffer = String::new(alloc);
        Canonical { keep, buffer }
    }
}

impl Job for Canonical {
    ghost outcome = { λ canonical line. of_reference
        (λ r. Written (answer_line canonical.keep.0 line (canonical_text (key r)))) line };

    ghost goes_on = { λ old _ new. new.keep ≡ old.keep };

    fn answer(&mut self, line: &[u8], out: &mut Vec<u8>) -> Result<(), LineFault> {
        let reference = reference(line)?;
        let canonical = reference.canonical_in(&mut self.buffer)?;
        Ok(self.keep.push(canonical.as_bytes(), line, out)?)
    }
}

/// Writes sort keys, in hexadecimal digits.
#[derive(Clone, Copy)]
pub struct Key(pub Keep);

impl Job for Key {
    ghost outcome = { λ keys line. of_reference
        (λ r. Written (answer_line keys.0.0 line (encode_lower (sort_key (key r))))) line };

    fn answer(&mut self, line: &[u8], out: &mut Vec<u8>) -> Result<(), LineFault> {
        let key = reference(line)?.sort_key(*out.allocator())?;
        let digits = encode(*out.allocator(), key.as_bytes()).or(Err(Memory))?;
        Ok(self.0.push(digits.as_bytes(), line, out)?)
    }
}

/// Resolves references against a base.
#[derive(Clone, Copy)]
pub struct Resolve<'a>(pub Iri<'a>, pub Keep);

impl Job for Resolve<'_> {
    ghost outcome = { λ job line. of_reference
        (λ r. Written (answer_line job.1.0 line (spell (resolved (reference_value job.0) r))))
        line };

    fn answer(&mut self, line: &[u8], out: &mut Vec<u8>) -> Result<(), LineFault> {
        let uri = reference(line)?.resolved(*out.allocator(), self.0)?;
        Ok(self.1.push(uri.as_bytes(), line, out)?)
    }
}

/// Writes the shortest references from a base to targets.
#[derive(Clone, Copy)]
pub struct Relativize<'a>(pub Iri<'a>, pub Keep);

impl Job for Relativize<'_> {
    ghost outcome = { λ job line. of_iri (λ target. or_unreached
        (λ shortest. answer_line job.1.0 line (spell shortest))
        (relativized target (reference_value job.0))) line };

    fn answer(&mut self, line: &[u8], out: &mut Vec<u8>) -> Result<(), LineFault> {
        let target: Iri<'_> = read(line)?;
        let Some(reference) = target.relativized(*out.allocator(), self.0)? else {
            return Err(LineFault::NoReference);
        };
        Ok(self.1.push(reference.as_bytes(), line, out)?)
    }
}

/// Writes the lines below a reference, of which it has the sort prefix.
#[derive(Drop)]
pub struct Below<'a> {
    /// What the lines are below.
    pub above: IriRef<'a>,
    prefix: Vec<u8>,
    ghost of_above: { prefix.items ≡ sort_prefix (key_of_reference above) },
    // The sort key of a line.
    key: Vec<u8>,
}

impl<'a> Below<'a> {
    /// Below this reference.
    pub fn new(alloc: Global, above: IriRef<'a>) -> Result<Self, Memory>
        ensures { IfOk result (λ job. job.above ≡ above.entry) }
    {
        let mut prefix = Vec::new(alloc);
        above.append_sort_prefix_to(&mut prefix)?;
        let key = Vec::new(alloc);
        Ok(Below { above, prefix, key })
    }
}

impl Job for Below<'_> {
    ghost outcome = { λ below line. of_reference (λ r. Written
        (if is_below (reference_value below.above) r then with_newline line else [])) line };

    ghost goes_on = { λ old _ new. new.above ≡ old.above };

    fn answer(&mut self, line: &[u8], out: &mut Vec<u8>) -> Result<(), LineFault> {
        let reference = reference(line)?;
        self.key.clear();
        reference.append_sort_key_to(&mut self.key)?;
        if self.key.starts_with(self.prefix.as_slice()) {
            push_line(out, line)?;
        }
        Ok(())
    }
}

/// Writes the lines that are equal to none before them.
#[derive(Drop)]
pub struct Unique {
    seen: BTreeSet<SortKey>,
}

impl Unique {
    /// Before the first line.
    pub fn new(alloc: Global) -> Self
        ensures { (r : ReferenceValue) → has_seen result r ≡ false }
    {
        let seen = BTreeSet::new(alloc);
        Unique { seen }
    }
}

impl Job for Unique {
    ghost outcome = { λ unique line. of_reference (λ r. Written
        (if has_seen unique r then [] else with_newline line)) line };

    ghost goes_on = { SeesMore };

    fn answer(&mut self, line: &[u8], out: &mut Vec<u8>) -> Result<(), LineFault> {
        let key = reference(line)?.sort_key(*out.allocator())?;
        // The line is written wherever its key is kept.
        let room = line.len().checked_add(1).ok_or(Memory)?;
        out.reserve(room).or(Err(Memory))?;
        let Ok(is_new) = self.seen.insert(key) else {
            return Err(LineFault::Memory);
        };
        if is_new {
            out.extend_from_slice(line).or(Err(Memory))?;
            out.push(b'\n').or(Err(Memory))?;
        }
        Ok(())
    }
}

/// Gathers the lines, to be sorted.
#[derive(Drop)]
pub struct Sort {
    text: Vec<u8>,
}

impl Sort {
    /// Before the first line.
    pub fn new(alloc: Global) -> Self
        ensures { gathered result ≡ [] }
    {
        let text = Vec::new(alloc);
        Sort { text }
    }

    /// The lines in order of their keys, those that are equal in the order in which they came.
    pub fn sorted(&self) -> Result<Vec<IriRef<'_>>, Memory>
        ensures same { IfOk result (λ sorted.
            IsPermutation (lines_in self.now) (map reference_text sorted.items)) }
        ensures order { IfOk result (λ sorted.
            IsSorted (on key_of_text key_cmp) (map reference_text sorted.items)) }
        ensures stable { IfOk result (λ sorted. IsStable (on key_of_text key_cmp)
            (lines_in self.now) (map reference_text sorted.items)) }
    {
        let alloc = *self.text.allocator();
        let mut references = Vec::new(alloc);
        let mut rest = self.text.as_slice();
        while let Some((line, more)) = cut_at(b'\n', rest) {
            if let Ok(reference) = reference(line) {
                references.push(reference)?;
            }
            rest = more;
        }
        sorted(alloc, references.as_slice())
    }
}

impl Job for Sort {
    ghost outcome = { sort_outcome };

    ghost goes_on = { Gathers };

    fn answer(&mut self, line: &[u8], _out: &mut Vec<u8>) -> Result<(), LineFault> {
        reference(line)?;
        Ok(push_line(&mut self.text, line)?)
    }
}
