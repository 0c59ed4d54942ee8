// What can be reached in two small graphs, and a least path.
ghost use Rattle.std.specs.Prelude.{◌≡◌, [], ◌∷◌, ℕ, List, nat_eq};
ghost use Rattle.lido_base.specs.Reach.{Reaches, IsDecided, IsLeastPath, IsLeastCycle, IsPath, IsWithin};
ghost use Rattle.trials_of_values.specs.Graphs.{chain, ways, even_start, rounds};

/// Where 3 leads to 2 and 2 to the source 1, all three reach it; 4, which leads to itself alone, and 0 do not.
pub fn what_reaches_a_source()
    ensures source { Reaches (nat_eq 1) chain 1 }
    ensures far { Reaches (nat_eq 1) chain 3 }
    ensures alone { ¬ Reaches (nat_eq 1) chain 4 }
    ensures apart { ¬ Reaches (nat_eq 1) chain 0 }
    ensures within { IsWithin (1 ∷ 2 ∷ 3 ∷ 4 ∷ []) (nat_eq 1) chain }
    ensures decided { IsDecided (nat_eq 1) chain }
{}

/// Of three paths from 0 to 3 the least goes over 1: that over 2 is as short and behind it, that over 4 is longer. Where a path
/// may begin at 0 or at 2, it begins at 2. The least cycle is the shortest, though another has a lesser vertex.
pub fn the_least_path()
    ensures least { IsLeastPath (nat_eq 0) (nat_eq 3) ways (0 ∷ 1 ∷ 3 ∷ []) }
    ensures behind { IsPath (nat_eq 3) ways (0 ∷ 2 ∷ 3 ∷ []) }
    ensures longer { IsPath (nat_eq 3) ways (0 ∷ 4 ∷ 1 ∷ 3 ∷ []) }
    ensures not_behind { ¬ IsLeastPath (nat_eq 0) (nat_eq 3) ways (0 ∷ 2 ∷ 3 ∷ []) }
    ensures not_longer { ¬ IsLeastPath (nat_eq 0) (nat_eq 3) ways (0 ∷ 4 ∷ 1 ∷ 3 ∷ []) }
    ensures no_path { ¬ IsLeastPath (nat_eq 0) (nat_eq 3) ways (0 ∷ 3 ∷ []) }
    ensures free_start { IsLeastPath even_start (nat_eq 3) ways (2 ∷ 3 ∷ []) }
    ensures not_from_zero { ¬ IsLeastPath even_start (nat_eq 3) ways (0 ∷ 1 ∷ 3 ∷ []) }
    ensures cycle { IsLeastCycle rounds (3 ∷ 3 ∷ []) }
    ensures not_the_cycle { ¬ IsLeastCycle rounds (1 ∷ 2 ∷ 1 ∷ []) }
{}
