ghost use Rattle.text.specs.Laws.{WrittenIsReadBack, ReadIsWrittenBack, ReadingEndsInOneWay};

/// What is written is read back as the same chart, for every drawn chart.
#[tactic(auto, using(crate::proofs::ReadBack::read_back))]
pub fn written_is_read_back()
    ensures { WrittenIsReadBack }
{}

/// What is read and accepted is written back as the same bytes, for every string of bytes.
#[tactic(auto, using(crate::proofs::WrittenBack::written_back))]
pub fn read_is_written_back()
    ensures { ReadIsWrittenBack }
{}

/// Reading a string of bytes ends in one way only.
#[tactic(auto, using(crate::proofs::OneWay::one_way))]
pub fn reading_ends_in_one_way()
    ensures { ReadingEndsInOneWay }
{}
