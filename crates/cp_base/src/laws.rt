// Laws of regions and their runs, and worked examples. The functions do nothing; their clauses are the laws.
ghost use Rattle.std.specs.Prelude.{◌≡◌, ◌↔◌, ◌<◌, ℕ, IsTrue, true, false, List, [], ◌∷◌, All, Any, AllPairs};
ghost use Rattle.cp_base.specs.Region.{Region, region_of};
ghost use Rattle.cp_base.specs.Runs.{AreRunsOf, runs_of};
ghost use Rattle.cp_base.specs.Sharing.{AreDisjoint, Covers, HaveCommonByte, any_overlap, meets_any, shares_byte};

use crate::SpaceId;

/// The tests of regions say what their bytes say: two regions share a byte exactly where a byte lies in
/// both, and some regions overlap exactly where two of them do.
pub fn sharing_laws()
    ensures shared { (a b : Region) → IsTrue (shares_byte a b) ↔ HaveCommonByte a b }
    ensures apart { (a b : Region) → (shares_byte a b ≡ false) ↔ AreDisjoint a b }
    ensures met { (regions : List Region) (region : Region)
        → (meets_any regions region ≡ false) ↔ All (AreDisjoint region) regions }
    ensures overlapping { (regions : List Region)
        → (any_overlap regions ≡ false) ↔ AllPairs AreDisjoint regions }
{}

/// Of regions that are not empty, `runs_of` gives the runs, and these regions alone are the runs.
pub fn runs_laws()
    ensures runs { (regions : List Region) → All (λ region. 0 < region.len) regions
        → AreRunsOf (runs_of regions) regions }
    ensures one_list { (regions some others : List Region)
        → AreRunsOf some regions → AreRunsOf others regions → some ≡ others }
{}

/// Which bytes some regions share.
pub fn sharing_examples()
    ensures inside { shares_byte (region_of (SpaceId.Mem 1) 0 8) (region_of (SpaceId.Mem 1) 2 3) ≡ true }
    ensures last_byte { shares_byte (region_of (SpaceId.Mem 1) 0 8) (region_of (SpaceId.Mem 1) 7 8) ≡ true }
    ensures adjacent { shares_byte (region_of (SpaceId.Mem 1) 0 8) (region_of (SpaceId.Mem 1) 8 8) ≡ false }
    ensures other_kind { shares_byte (region_of (SpaceId.Mem 1) 0 8) (region_of (SpaceId.Nvm 1) 0 8) ≡ false }
    ensures empty { shares_byte (region_of (SpaceId.Mem 1) 0 8) (region_of (SpaceId.Mem 1) 4 0) ≡ false }
{}

/// The runs of some regions.
pub fn runs_examples()
    ensures touching { runs_of (region_of (SpaceId.Mem 1) 4 4 ∷ region_of (SpaceId.Mem 1) 0 4 ∷ [])
        ≡ region_of (SpaceId.Mem 1) 0 8 ∷ [] }
    ensures overlapping { runs_of (region_of (SpaceId.Mem 1) 0 6 ∷ region_of (SpaceId.Mem 1) 4 4 ∷ [])
        ≡ region_of (SpaceId.Mem 1) 0 8 ∷ [] }
    ensures inside { runs_of (region_of (SpaceId.Mem 1) 2 3 ∷ region_of (SpaceId.Mem 1) 0 8 ∷ [])
        ≡ region_of (SpaceId.Mem 1) 0 8 ∷ [] }
    ensures two_kinds { runs_of (region_of (SpaceId.Mem 1) 0 4 ∷ region_of (SpaceId.Nvm 2) 4 4 ∷ [])
        ≡ region_of (SpaceId.Nvm 2) 4 4 ∷ region_of (SpaceId.Mem 1) 0 4 ∷ [] }
    ensures between { runs_of (region_of (SpaceId.Mem 1) 2 2 ∷ region_of (SpaceId.Mem 1) 4 2 ∷ region_of (SpaceId.Mem 1) 0 2 ∷ [])
        ≡ region_of (SpaceId.Mem 1) 0 6 ∷ [] }
    ensures apart { runs_of (region_of (SpaceId.Mem 1) 5 2 ∷ region_of (SpaceId.Mem 1) 0 4 ∷ [])
        ≡ region_of (SpaceId.Mem 1) 0 4 ∷ region_of (SpaceId.Mem 1) 5 2 ∷ [] }
{}
