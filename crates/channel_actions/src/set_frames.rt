// The sets that the channel keeps in order, as pairs come and go; nothing runs.
ghost use Rattle.channel_actions.specs.SetFrames.Laws.{PairsComeIn, PairsGo, TestsAreSame};

/// A set of pairs that has exactly those that pass a test has that pair more once one is put in, and that pair less once it is taken out.
pub fn sets_change()
    ensures comes { PairsComeIn }
    ensures goes { PairsGo }
    ensures same { TestsAreSame }
{}
