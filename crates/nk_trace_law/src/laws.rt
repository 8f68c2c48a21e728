// The laws over the printed text. A law is a function that does nothing: its contract is what is proved.

ghost use Rattle.nk_trace_law.specs.DigitLaws.{BytesDigitsLaw, BytesSpelledLaw, BytesToldLaw, CodeSpelledLaw, CodeValueLaw, StatusDigitsLaw, StatusSpelledLaw, StatusValueLaw};
ghost use Rattle.nk_trace_law.specs.LineLaws.{ChildWordsLaw, EntryCountLaw, FirstLineLaw, GoodTrailersLaw, JoinedLinesLaw, LinesLaw, OneLineLaws, OneListLaw, OneWordsLaw, ParentWordsLaw};
ghost use Rattle.nk_trace_law.specs.LogLaws.{ChildBlockLaw, LogLaw, LogReportLaw, LogTextLaw, ParentBlockLaw, WithoutLogLaw};
ghost use Rattle.nk_trace_law.specs.PartLaws.{BeginsLaw, JoinedLaw, PartsLaw, PlainTextLaw};
ghost use Rattle.nk_trace_law.specs.RangeLaws.{BackRangeLaw, MainRangeLaw, UpRangeLaw};
ghost use Rattle.nk_trace_law.specs.StepLaws.{ChildStepLaw, HalfLaw, ParentStepLaw};
ghost use Rattle.nk_trace_law.specs.TextLaws.{BackTextLaw, BlankLaws, ChildLineLaw, MainTextLaw, ParentLineLaw, UpTextLaw};
ghost use Rattle.nk_trace_law.specs.TraceLaws.{EntryLinesLaw, GoodPartedLaw, ReaderLineLaw, ReportLaw};

/// The report is lines, each ended by one line feed, with no line feed inside. All that is printed as one line is one, and an
/// entry of a trace is as many lines as it should be; a trailer is printed as it is, and is one line where it has no line feed,
/// as a good field has none. A text is the lines of one list at most, and tells its first line.
pub fn lines_law()
    ensures report { LinesLaw }
    ensures good { GoodTrailersLaw }
    ensures one_list { OneListLaw }
    ensures first { FirstLineLaw }
    ensures joined { JoinedLinesLaw }
    ensures one_line { OneLineLaws }
    ensures count { EntryCountLaw }
{}

/// Statuses, codes and bytes are printed in digits, of which they are the value, and such digits are those of their value.
pub fn digits_law()
    ensures status { StatusDigitsLaw }
    ensures status_value { StatusValueLaw }
    ensures status_spelled { StatusSpelledLaw }
    ensures code { CodeValueLaw }
    ensures code_spelled { CodeSpelledLaw }
    ensures bytes { BytesDigitsLaw }
    ensures bytes_told { BytesToldLaw }
    ensures bytes_spelled { BytesSpelledLaw }
{}

/// Each line of the journals is words, with one space between each two, and tells them.
pub fn words_law()
    ensures parent { ParentWordsLaw }
    ensures child { ChildWordsLaw }
    ensures one_list { OneWordsLaw }
{}

/// The report is the parts of its channels, one behind the other, and equal reports have equal parts.
pub fn parts_law()
    ensures joined { JoinedLaw }
    ensures begins { BeginsLaw }
    ensures parts { PartsLaw }
{}

/// Without the log the report depends, for each channel, on what its listener saw, its readers' ends and its ending alone.
pub fn plain_text_law()
    ensures { PlainTextLaw }
{}

/// The text of a message tells the message, but for the fields, bytes and trailers of which it prints the number alone. The
/// numbers have to fit: of a status of more than 32 bits the high ones are not printed.
pub fn message_text_law()
    ensures main { MainTextLaw }
    ensures back { BackTextLaw }
    ensures up { UpTextLaw }
{}

/// A message in range fits, where its status has 32 bits and its offset 64.
pub fn range_law()
    ensures main { MainRangeLaw }
    ensures back { BackRangeLaw }
    ensures up { UpRangeLaw }
{}

/// A line of a journal tells its entry, as the text of a message does the message.
pub fn journal_line_law()
    ensures parent { ParentLineLaw }
    ensures child { ChildLineLaw }
{}

/// Nothing else is left out: a message is printed as it is with those fields, bytes and trailers blank.
pub fn blank_law()
    ensures { BlankLaws }
{}

/// The lines of an entry of a trace tell the entry, and the line of a reader the reader. A trailer is told where its name is a
/// word and its value a line, as those of a good field are.
pub fn entry_line_law()
    ensures entry { EntryLinesLaw }
    ensures reader { ReaderLineLaw }
    ensures good { GoodPartedLaw }
{}

/// The report tells, with a log or without, what each listener saw, what its readers were given and how each channel ended.
pub fn report_law()
    ensures { ReportLaw }
{}

/// The first line of a block in the log tells which half entered it, and in which step.
pub fn step_law()
    ensures parent { ParentStepLaw }
    ensures child { ChildStepLaw }
    ensures half { HalfLaw }
{}

/// The lines of a block, of a whole journal and of a whole log tell the entries, but for what is not shown.
pub fn block_law()
    ensures parent { ParentBlockLaw }
    ensures child { ChildBlockLaw }
    ensures log { LogLaw }
{}

/// The report with the log tells the journals of each channel, but for what is not shown, and the report without it; and it
/// depends on no more than these.
pub fn log_law()
    ensures told { LogReportLaw }
    ensures without { WithoutLogLaw }
    ensures only { LogTextLaw }
{}
