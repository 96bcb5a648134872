//! Laws of lines.
ghost use Rattle.scp_batches.specs.Lines.{IsSplitInOneWay};

/// A text can be split into lines and a rest in only one way.
pub fn an_input_is_split_in_one_way()
    ensures { IsSplitInOneWay }
{}
