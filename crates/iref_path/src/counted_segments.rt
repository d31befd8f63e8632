//! The segments of a path, read from the back, each of them counted.

ghost use Rattle.std.specs.Prelude.{◌≡◌};
ghost use Rattle.iref_path.specs.Pieces.{pieces_if_some};

use crate::segments::last_segment;

/// The segments of a text that are left, and how many have been read.
///
/// Only `read` gives a segment, and it counts it: no other call gives the text, and there are no
/// copies. So what is passed this and not the text can read no segment uncounted.
#[derive(Drop)]
pub(crate) struct CountedSegments<'a> {
    // The text of the segments that are left, with `/` between.
    rest: Option<&'a str>,
    // How many have been read.
    count: usize,
}

impl<'a> CountedSegments<'a> {
    ghost use Rattle.iref_path.specs.CountedSegments.{GivesSegment, HasRoom, IsCounted};
    ghost use Rattle.iref_path.specs.CountedSegments.{segments_counted, segments_left};

    /// The segments of a text, of which none has been read.
    pub(crate) fn new(segments: Option<&'a str>) -> Self
        ensures segments { segments_left result ≡ pieces_if_some segments.entry }
        ensures none_read { segments_counted result ≡ 0 }
    {
        CountedSegments {
            rest: segments,
            count: 0,
        }
    }

    /// The last segment that is left, which is counted.
    #[tactic(auto, using(std::proofs::lemmas::Grind::common_steps), unfolding(crate::specs::CountedSegments::unread))]
    pub(crate) fn read(&mut self) -> Option<&'a str>
        requires { HasRoom self.old }
        ensures segment { GivesSegment self.old result self.new }
        ensures counted { IsCounted self.old self.new }
    {
        let (rest, segment) = last_segment(self.rest?);
        self.rest = rest;
        self.count += 1;
        Some(segment)
    }

    /// How many segments have been read.
    pub(crate) fn count(&self) -> u128
        ensures { result ≡ segments_counted self.now }
    {
        self.count as u128
    }
}
