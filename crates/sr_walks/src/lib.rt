//! Laws of walks and distances over every graph, proved over the definitions alone, and the lemmas behind them. Each law
//! is what a function with an empty body ensures; its statement stands in `specs/`.
#![tactic(auto)]

ghost use Rattle.sr_walks.specs.Distance.{DistancesAreUnique, RowsAreUnique, DistancesMeetTriangles, DistancesAreSmall, PartsAreShortest, ShortestWalksAreLoopFree};
ghost use Rattle.sr_walks.specs.Sums.{ShortestBySums, NextHopsBySums, SpacesBySums};

/// There is at most one distance between two nodes, and at most one row of distances from a node; a distance obeys the
/// triangle law and is small.
pub fn distances_are_unique()
    ensures numbers { DistancesAreUnique }
    ensures rows { RowsAreUnique }
    ensures triangles { DistancesMeetTriangles }
    ensures small { DistancesAreSmall }
{}

/// The parts of a shortest walk are shortest, and it is loop-free.
pub fn shortest_walks()
    ensures parts { PartsAreShortest }
    ensures distinct { ShortestWalksAreLoopFree }
{}

/// Links on shortest walks, next hops and spaces are told by sums of distances.
pub fn shortest_by_sums()
    ensures links { ShortestBySums }
    ensures hops { NextHopsBySums }
    ensures spaces { SpacesBySums }
{}
