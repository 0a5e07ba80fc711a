//! Laws of the definitions: functions that do nothing, whose contracts hold of every value.
ghost use Rattle.mx_json.specs.Laws.{DataIsWhole, TextReadsBack};

/// A value in range is made of its data again, so no other value has its data.
pub fn data_is_whole()
    ensures { DataIsWhole }
{}

/// The compact text of a value reads back as the value, where it is in range and nests at most 127 deep, its texts are
/// UTF-8 and its keys are in order.
pub fn text_reads_back()
    ensures { TextReadsBack }
{}
