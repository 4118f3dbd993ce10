//! The laws of policy texts.
ghost use Rattle.journal_text.specs.CutLaws.{CutAnywhereIsRecovered, CutEndIsRecovered, CutEntryIsLeftOut, LastLineIsLeftOut, NoCutPolicyWithError, OneCutError, OneCutPolicy, OneKept, ShortLineIsLeftOut, WholeIsRecovered};
ghost use Rattle.journal_text.specs.PolicyLaws.{NoPolicyWithError, OnePolicy, OnePolicyError, PrintedIsRead};

/// No text reads as two policies; a text that has an error, want of memory apart, has no other and reads as none. The call
/// does nothing.
pub fn texts_tell_one_policy()
    ensures one { OnePolicy }
    ensures no_error { NoPolicyWithError }
    ensures one_error { OnePolicyError }
{}

/// The text of a legal policy, as the program makes one, is read as it where each entry has a session. The call does nothing.
pub fn printed_policies_are_read_again()
    ensures { PrintedIsRead }
{}

/// One text is kept of each that may be cut. No text is cut to two policies; one that has an error, want of memory apart, has
/// no other and is cut to none. The call does nothing.
pub fn cut_texts_tell_one_policy()
    ensures kept { OneKept }
    ensures one { OneCutPolicy }
    ensures no_error { NoCutPolicyWithError }
    ensures one_error { OneCutError }
{}

/// A text that is not cut reads as it does whole; wherever it is cut behind its first line feed, some first principals,
/// authorities and entries of its policy are recovered. The call does nothing.
pub fn whole_policies_are_recovered()
    ensures whole { WholeIsRecovered }
    ensures anywhere { CutAnywhereIsRecovered }
{}

/// The text of a legal policy, as the program makes one, is recovered as it where it is cut within its last line, and where it
/// lacks its last line and any line without its line feed follows: that of one more entry, cut anywhere before its line
/// feed, is one. The call does nothing.
pub fn cut_policies_are_recovered()
    ensures line { LastLineIsLeftOut }
    ensures short { ShortLineIsLeftOut }
    ensures entry { CutEntryIsLeftOut }
    ensures end { CutEndIsRecovered }
{}
