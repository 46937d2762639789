//! The laws of whole reports. Each function does nothing: its contract is the law.
ghost use Rattle.stm_report_laws.specs.WholeLaws.{AlikeIsEqual, YesIsTheReport};

/// Two texts are alike line by line exactly where they are the same bytes.
#[tactic(auto, using(crate::proofs::WholeReportLaws::alike_is_equal))]
pub fn alike_is_equal()
    ensures { AlikeIsEqual }
{}

/// A check of a whole report that comes to an answer says yes exactly where the text is the report that `script` writes for the
/// scenario, for texts of at most 16777216 bytes.
pub fn yes_is_the_report()
    ensures { YesIsTheReport }
{}
