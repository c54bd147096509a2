//! The laws that join the text of a replay to its lines, and those of lines in words. They have no
//! code: each is proved for the definitions that the contracts of `replay` and `spell_line` cite.

ghost use Rattle.forecourt_engines.specs.WholeText.{IsOneStreamOfLines};
ghost use Rattle.forecourt_engines.specs.Laws.{LineSays, LastLineSays, LongLineSays};
ghost use Rattle.forecourt_engines.specs.Laws.{NothingFollows};
ghost use Rattle.forecourt_engines.specs.WordLaws.{AsksForOneThing, IsSpelledInOneWay};

/// The text of a line of at most `LINE_OCTETS` octets with its line feed is that of the whole line:
/// empty if the line is skipped, a bad line if it isn't hexadecimal, otherwise the answers to the
/// messages that its octets end.
pub fn a_line_says()
    ensures { LineSays }
{}

/// The same is true of a last line without a line feed.
pub fn a_last_line_says()
    ensures { LastLineSays }
{}

/// A longer line ends the text. It has no text and makes no row.
pub fn a_long_line_says()
    ensures { LongLineSays }
{}

/// Once the text has ended nothing is written, whatever follows.
pub fn nothing_follows()
    ensures { NothingFollows }
{}

/// The text of a replay as a whole. The lines before the first bad one spell one stream of octets,
/// wherever the lines break it. The text is the answers to the messages of that stream, one on each
/// line, with their changes if these are written, and then the line of the stream's fault, if it
/// has one. The replay's fault is that fault, otherwise the bad line, otherwise 44 if octets of the
/// stream are left. The rows are those of the stream's messages.
pub fn one_stream_of_lines()
    ensures { IsOneStreamOfLines }
{}

/// A line in words asks for one thing: it never has two actors, events or tokens.
pub fn a_line_asks_for_one_thing()
    ensures { AsksForOneThing }
{}

/// So a line is spelled in one way: with the same token before it, any two texts that spell it are
/// equal, and so are the tokens after it.
pub fn a_line_is_spelled_in_one_way()
    ensures { IsSpelledInOneWay }
{}
