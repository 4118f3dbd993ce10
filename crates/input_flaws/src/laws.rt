//! The law of flaws.
ghost use Rattle.input_flaws.specs.Laws.{OneFlaw};

use nal_parse::refused_texts_have_one_error;

/// A line of a text has one flaw. The call does nothing.
pub fn a_line_has_one_flaw()
    ensures { OneFlaw }
{
    refused_texts_have_one_error();
}
