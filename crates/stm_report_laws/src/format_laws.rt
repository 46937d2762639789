//! Laws of the formats. Each function does nothing: its contract is the law.
ghost use Rattle.stm_report_laws.specs.FormatLaws.{OneRowAnEvent, OneObjectAnEvent, OneLineARow, KeysApart, NothingUnescaped};

/// A run has one row for each event, in text and in the picture, numbered in their order from 1.
pub fn one_row_an_event()
    ensures { OneRowAnEvent }
{}

/// A run has one object for each event.
#[tactic(auto, using(crate::proofs::FormatOneRow::one_object_an_event))]
pub fn one_object_an_event()
    ensures { OneObjectAnEvent }
{}

/// Each row of a text without a width is one line: no key, value or message breaks it.
#[tactic(auto, using(crate::proofs::FormatOneLine::one_line_a_row))]
pub fn one_line_a_row()
    ensures { OneLineARow }
{}

/// Two keys that rows show alike are the same key, whatever characters they have that cannot be seen, and whether they are shown whole or without their middle.
#[tactic(auto, using(crate::proofs::FormatApart::keys_apart))]
pub fn keys_apart()
    ensures { KeysApart }
{}

/// What stands escaped in a picture opens and closes no element, and ends no attribute.
#[tactic(auto, using(crate::proofs::FormatEscapedLaws::nothing_unescaped))]
pub fn nothing_unescaped()
    ensures { NothingUnescaped }
{}
