//! What a hasher reads of a text: pieces of 256 bytes from its end, and then 255.
ghost use Rattle.std.specs.Prelude.{◌≡◌, ◌+◌, ◌≤◌, ◌∷◌, ◌++◌, [], drop, fold, length, ⊤};
ghost use Rattle.std.specs.Hash.{u8 as fed_byte};
ghost use Rattle.iref_grammar.specs.Rules.{Text};
ghost use Rattle.iref_splice.specs.Fed.{fed_text, waiting_after, written_after};
ghost use Rattle.iref_splice.specs.FedLaws.{fed-both, fed-nothing, waiting-both, waiting-nothing};

use crate::backward::Backward;
use std::hash::Hasher;
use std::marker::Model;

/// How many bytes a piece has at most.
pub(crate) const ROOM: usize = 256;

// Writes the last piece to the hasher, which ends the text.
#[inline(always)]
fn write_last<H: Hasher>(piece: &[u8], state: &mut H)
    ensures { state.new ≡ fold H.write state.old (piece.now ∷ fed_byte 255) }
{
    state.write(piece);
    state.write_u8(0xff);
}

/// Feeds a text to a hasher. No byte is copied.
#[inline(always)]
#[tactic(auto, using(crate::proofs::FedLemmas::cuts))]
pub fn feed_text<H: Hasher>(text: &[u8], state: &mut H)
    ensures { state.new ≡ fold H.write state.old (fed_text text.now) }
{
    let mut rest = text;
    while rest.len() > ROOM {
        let (front, piece) = rest.split_at(rest.len() - ROOM);
        state.write(piece);
        rest = front;
    }
    write_last(rest, state);
}

/// The piece of a text that waits to be written to a hasher.
#[derive(Drop)]
pub struct Waiting {
    // The piece stands at the end.
    bytes: [u8; ROOM],
    start: usize,
}

impl Model for Waiting {
    ghost Value = { Text };

    ghost view = { λ w. drop w.start w.bytes };

    ghost invariant = { λ w. (w.start ≤ 256) × (length w.bytes ≡ 256) };
}

impl Waiting {
    /// No byte waits.
    #[inline(always)]
    pub(crate) fn new() -> Self
        ensures { result ≡ [] }
    {
        Waiting {
            bytes: [0; ROOM],
            start: ROOM,
        }
    }

    /// The bytes that wait.
    #[inline(always)]
    pub(crate) fn as_slice(&self) -> &[u8]
        ensures { result.now ≡ self.now }
    {
        &self.bytes[self.start..]
    }

    // How many more bytes can wait.
    #[inline(always)]
    fn room(&self) -> usize
        ensures { result + length self.now ≡ 256 }
    {
        self.start
    }

    /// Puts bytes before those that wait. One, and three, as an escape has, are copied with no call.
    #[inline(always)]
    #[tactic(auto, using(std::proofs::lemmas::List::take_all))]
    pub(crate) fn put_fitting(&mut self, bytes: &[u8])
        requires { length bytes.now + length self.old ≤ 256 }
        ensures { self.new ≡ bytes.now ++ self.old }
    {
        let start = self.start - bytes.len();
        if bytes.len() == 1 {
            self.bytes[start] = bytes[0];
        } else if bytes.len() == 3 {
            self.bytes[start..start + 3].copy_from_slice(&bytes[..3]);
        } else {
            self.bytes[start..self.start].copy_from_slice(bytes);
        }
        self.start = start;
    }

    // Writes the piece, and then no byte waits.
    fn write<H: Hasher>(&mut self, state: &mut H)
        ensures state { state.new ≡ H.write state.old self.old }
        ensures none { self.new ≡ [] }
    {
        state.write(self.as_slice());
        self.start = ROOM;
    }

    // Puts bytes before those that wait. A full piece is written when one more byte comes.
    #[inline(always)]
    #[tactic(auto, using(crate::proofs::FedLemmas::puts))]
    fn put<H: Hasher>(&mut self, bytes: &[u8], state: &mut H)
        ensures state { state.new ≡ fold H.write state.old (written_after self.old bytes.now) }
        ensures waiting { self.new ≡ waiting_after self.old bytes.now }
    {
        let mut rest = bytes;
        while rest.len() > self.room() {
            let (front, back) = rest.split_at(rest.len() - self.room());
            self.put_fitting(back);
            self.write(state);
            rest = front;
        }
        self.put_fitting(rest);
    }
}

/// A hasher that takes a text from its end.
#[derive(Drop)]
pub struct Fed<'a, H: Hasher> {
    state: &'a mut H,
    waiting: Waiting,
}

impl<'a, H: Hasher> Fed<'a, H> {
    /// No byte is taken.
    #[inline(always)]
    pub fn new(state: &'a mut H) -> Self
        ensures same_reference { result.state.ghost_name ≡ state.entry.ghost_name }
        ensures state { result.state.now ≡ state.old }
        ensures none { result.waiting ≡ [] }
    {
        Fed {
            state,
            waiting: Waiting::new(),
        }
    }

    /// Ends the text: what is left of its front is written, and then 255.
    pub fn end(self)
        ensures { self.exit.0.now
            ≡ fold H.write self.entry.state.now (self.entry.waiting ∷ fed_byte 255) }
    {
        let Fed { state, waiting } = self;
        write_last(waiting.as_slice(), state);
    }
}

impl<H: Hasher> Backward for Fed<'_, H> {
    ghost after = { λ f piece. record f {
      state = record f.state {
        now = fold H.write f.state.now (written_after f.waiting piece);
      };
      waiting = waiting_after f.waiting piece;
    } };

    ghost fits = { λ _ _. ⊤ };

    #[inline(always)]
    fn put(&mut self, piece: &[u8]) {
        self.waiting.put(piece, self.state);
    }

    ghost after_nothing = { λ f i. record f {
      state = record f.state { now = fed-nothing H.write f.state.now f.waiting i };
      waiting = waiting-nothing f.waiting i;
    } };

    ghost after_both = { λ f front back i. record f {
      state = record f.state { now = fed-both H.write f.state.now f.waiting front back i };
      waiting = waiting-both f.waiting front back i;
    } };

    ghost fits_both = { λ _ _ _ _. (tt, tt) };
}
