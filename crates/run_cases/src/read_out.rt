// What was read of links between two entries; nothing runs.
ghost use Rattle.run_cases.specs.ReadOut.Laws.{ArrivalsAreAnswered, LinksAreReadOut};

use channel_actions::few_calls::links_are_few;
use frame_cases::piece_walks::{known_stays_along_frames, pieces_are_handled};

/// Where an entry comes to its event, no link has a whole frame that was not read (RFC 9113, section 4.1).
pub fn links_are_read_out()
    ensures { LinksAreReadOut }
{}

/// A piece that arrives is answered, with what runs keep, where its frames and what breaks a link are handled.
pub fn arrivals_are_answered()
    ensures { ArrivalsAreAnswered }
{
    known_stays_along_frames();
    links_are_few();
    links_are_read_out();
    pieces_are_handled();
}
