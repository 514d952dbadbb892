//! Laws of drawings: where the marks are, and that no line is added.
ghost use Rattle.rp_place.specs.Drawn.{HasThreeLines};
ghost use Rattle.rp_place.specs.Marks.{AreAsWideAsTheirPart, StandUnderTheirPlace};

/// The marks of a drawing stand under what is meant.
pub fn law_marks()
    ensures under { StandUnderTheirPlace }
    ensures wide { AreAsWideAsTheirPart }
{}

/// What is shown adds no line to a drawing.
pub fn law_lines()
    ensures { HasThreeLines }
{}
