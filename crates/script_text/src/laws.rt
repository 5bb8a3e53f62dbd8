//! Laws of the definitions. Each is the contract of a function with nothing to do.

ghost use Rattle.script_text.specs.Laws.{PartIsReadOnce, SyntaxDecides, CutterGivesParts, PartsAreOnce, ScriptGrows, HeaderIsWhole, SectionIsWhole, SyntaxGoesOn, LimitGoesOn};

/// A text has one reading at most as a part, and none where a line takes it out of the grammar.
pub fn one_reading()
    ensures once { PartIsReadOnce }
    ensures decides { SyntaxDecides }
{}

/// However a text is fed in pieces, a cutter gives its parts, and a text has its parts in one way alone.
pub fn parts_of_text()
    ensures fed { CutterGivesParts }
    ensures once { PartsAreOnce }
{}

/// A text whose parts are read one after another is the script of what was read, and where a line of a part
/// decides, it decides in the whole text.
pub fn script_by_parts()
    ensures grows { ScriptGrows }
    ensures header { HeaderIsWhole }
    ensures section { SectionIsWhole }
    ensures syntax { SyntaxGoesOn }
    ensures limit { LimitGoesOn }
{}
