//! Laws of the definitions: functions that do nothing, whose contracts hold of all rules.
ghost use Rattle.mx_rules.specs.Laws.{ContentIsWritten, ContentReadsBack};

/// The content that is written of rules says just these rules, where no id stands twice in a kind.
pub fn content_reads_back()
    ensures { ContentReadsBack }
{}

/// A content that says rules is just the one that is written of them, and no id stands twice in a kind: so no two contents
/// say the same rules.
pub fn content_is_written()
    ensures { ContentIsWritten }
{}
