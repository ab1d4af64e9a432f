//! Laws of all texts of answers, each the contract of a function without a body.

ghost use Rattle.answer_text.specs.Examples.{CyclicListLaw, LoopGraphLaw, TwoCyclesLaw};
ghost use Rattle.answer_text.specs.Laws.{LinesStandLaw, LongTextsStandLaw, OneTextLaw, RepresentedTextLaw, TextLaw, TextsStandLaw, WrittenOutLaw};

/// Consistent equations have at most one text of an answer.
pub fn one_text()
    ensures { OneTextLaw }
{}

/// Shown terms have a text, however long, where a graph decides which of their trees are the same
/// and which are cyclic, and where it is worked out from what stands for each term.
pub fn text_exists()
    ensures decided { TextLaw }
    ensures represented { RepresentedTextLaw }
{}

/// Lines with every tree written out are the text of the answer: no tree of them is cyclic.
pub fn written_out()
    ensures { WrittenOutLaw }
{}

/// Equations that stand for others give their texts, and only too long ones where these do.
pub fn texts_stand()
    ensures texts { TextsStandLaw }
    ensures long { LongTextsStandLaw }
    ensures lines { LinesStandLaw }
{}

/// Small cyclic trees, their texts, and a graph that is worked out.
pub fn cyclic_texts()
    ensures two_cycles { TwoCyclesLaw }
    ensures cyclic_list { CyclicListLaw }
    ensures loop_graph { LoopGraphLaw }
{}
