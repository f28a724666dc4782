//! Laws of made scripts.
ghost use Rattle.sr_make.specs.Joined.{ChordsFromSix, EachMadePairJoins};
ghost use Rattle.sr_make.specs.Sizes.{EachMadePduFits};

/// Each PDU of a made net is in range and has a spelling, each line is short enough to be read as a line, and the whole
/// script is short enough to be read.
pub fn each_made_pdu_fits()
    ensures { EachMadePduFits }
{}

/// Each pair of a made net joins two different nodes of the net, with a metric from 1 to 20 and a group from 1 to 8.
pub fn each_made_pair_joins()
    ensures { EachMadePairJoins }
{}

/// A made net has chords from six nodes on.
pub fn chords_begin_with_six_nodes()
    ensures { ChordsFromSix }
{}
