//! The regions that commands take out, and bring back. The functions do nothing: what they ensure is what is
//! proved.
ghost use Rattle.std.specs.Prelude.{◌≡◌, ◌<◌, ℕ, IsTrue, List, None, Some, false, if◌then◌else◌, length, map, true};
ghost use Rattle.std.specs.List.{AllByRecursion};
ghost use Rattle.cp_base.specs.Configuration.{Configuration};
ghost use Rattle.cp_base.specs.Known.{Known};
ghost use Rattle.cp_base.specs.Region.{Region};
ghost use Rattle.cp_base.specs.Runs.{runs_of};
ghost use Rattle.cp_base.specs.Sharing.{any_overlap};
ghost use Rattle.cp_base.specs.declared.commands.Command.{Command};
ghost use Rattle.cp_base.specs.declared.region.SpaceId.{SpaceId};
ghost use Rattle.device_model.specs.Checks.{refusal_of};
ghost use Rattle.device_model.specs.Memory.{moves_bytes, takes_memory};
ghost use Rattle.device_model.specs.State.{State};
ghost use Rattle.trail_model.specs.Fits.{SetFits};
ghost use Rattle.trail_model.specs.Lawful.{Trail, world_of};
ghost use Rattle.trail_model.specs.Pieces.{RegionBytes, any_has_byte, carried};
ghost use Rattle.trail_model.specs.World.{OpenClaim, claim_at, effect_of_claim};
ghost use Rattle.core_model.specs.Moves.{filled_by_all};
ghost use Rattle.core_model.specs.Parts.{Parts};
ghost use Rattle.core_model.specs.Picking.{taken_for};
ghost use Rattle.core_model.specs.Ties.{StandFor};

/// Each set fits. No two regions that are taken out for a command share a byte, and the regions that an open
/// claim brings back are out.
pub fn regions_are_apart()
    ensures sets { (c : Configuration) (commands : ℕ) (p : Parts) (trail : Trail) → StandFor c commands p trail
        → AllByRecursion (SetFits c) p.sets }
    ensures apart { (c : Configuration) (commands : ℕ) (p : Parts) (trail : Trail) (command : Command)
        → StandFor c commands p trail → any_overlap (taken_for c p command) ≡ false }
    ensures out { (c : Configuration) (commands : ℕ) (p : Parts) (trail : Trail) (place : ℕ) (claim : OpenClaim)
        → StandFor c commands p trail → claim_at (world_of c trail).claims place ≡ Some claim
        → AllByRecursion (λ (piece : RegionBytes). 0 < piece.region.len → p.out piece.region ≡ true)
        (effect_of_claim c claim).pieces }
{}

/// What an open claim comes to are pieces of which each has as many bytes as its region, and no two of these
/// share a byte. So put home one after the other they give what the finish of the claim says.
pub fn pieces_come_home()
    ensures whole { (c : Configuration) (claim : OpenClaim)
        → AllByRecursion (λ (piece : RegionBytes). length piece.bytes ≡ piece.region.len)
        (effect_of_claim c claim).pieces }
    ensures apart { (c : Configuration) (commands : ℕ) (p : Parts) (trail : Trail) (place : ℕ) (claim : OpenClaim)
        → StandFor c commands p trail → claim_at (world_of c trail).claims place ≡ Some claim
        → any_overlap (map (λ (piece : RegionBytes). piece.region) (effect_of_claim c claim).pieces) ≡ false }
    ensures filled { (pieces : List RegionBytes) (known : Known) (space : SpaceId) (offset : ℕ)
        → any_overlap (map (λ (piece : RegionBytes). piece.region) pieces) ≡ false
        → filled_by_all pieces known space offset
        ≡ (if any_has_byte (map (λ (piece : RegionBytes). piece.region) pieces) space offset
        then Some (carried pieces space offset) else known space offset) }
{}

/// Runs have the bytes of their regions.
pub fn runs_have_the_same_bytes()
    ensures { (regions : List Region) (space : SpaceId) (offset : ℕ)
        → any_has_byte (runs_of regions) space offset ≡ any_has_byte regions space offset }
{}

/// A command that moves bytes and passes its checks takes memory.
pub fn moving_bytes_takes_memory()
    ensures { (c : Configuration) (s : State) (command : Command) → IsTrue (moves_bytes command)
        → refusal_of c s command ≡ None → IsTrue (takes_memory c s command) }
{}
