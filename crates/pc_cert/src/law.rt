// Examples of the definitions, as laws.
ghost use Rattle.pc_cert.specs.Examples.{OrderExamples, TextExamples, LineExamples, SetExamples, ViewExamples};
ghost use Rattle.pc_sheet.specs.Sheet.{Sheet};
ghost use Rattle.pc_sheet.specs.declared.ids.Entry.{Entry};

/// Which lines may stand in which order, how lines fall into texts, which lines have which forms, what sets lines say, and how
/// symbols are numbered, by example.
pub fn worked_lines()
    ensures order { OrderExamples }
    ensures texts { TextExamples }
    ensures forms { LineExamples }
    ensures sets { (sheet : Sheet) (e : Entry) → SetExamples sheet e }
    ensures views { ViewExamples }
{}
