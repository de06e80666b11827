//! Which commands may be picked, by the parts. The functions do nothing: what they ensure is what is proved.
ghost use Rattle.std.specs.Prelude.{◌≡◌, ◌==◌, ℕ, None, find, map, option_map};
ghost use Rattle.cp_base.specs.Configuration.{Configuration};
ghost use Rattle.cp_base.specs.declared.commands.Command.{Command};
ghost use Rattle.trail_model.specs.Lawful.{Trail, world_of};
ghost use Rattle.trail_model.specs.World.{Request, claim_at, is_pickable, pickable_among, withdrawn_place};
ghost use Rattle.core_model.specs.Parts.{ClaimPlaces, KeptFootprint, Parts};
ghost use Rattle.core_model.specs.Picking.{may_pick, pickable_waiting, withdrawn_waiting};
ghost use Rattle.core_model.specs.Ties.{StandFor, as_kept, as_places, as_waiting};

/// A command may be picked by the parts exactly where it may be in the world, and those that wait and may be
/// picked are the world's, in order of submission. What an Abort withdraws by the parts is what it withdraws
/// in the world.
pub fn picking_by_parts()
    ensures command { (c : Configuration) (commands : ℕ) (p : Parts) (trail : Trail) (command : Command)
        → StandFor c commands p trail
        → may_pick c p command ≡ is_pickable c (world_of c trail) command }
    ensures list { (c : Configuration) (commands : ℕ) (p : Parts) (trail : Trail) → StandFor c commands p trail
        → pickable_waiting c p trail ≡ map as_waiting (pickable_among c (world_of c trail)) }
    ensures withdrawn { (c : Configuration) (commands : ℕ) (p : Parts) (trail : Trail) (request : Request)
        → StandFor c commands p trail
        → withdrawn_waiting p.waiting request.names ≡ withdrawn_place (world_of c trail).submits request }
{}

/// The open claim at a place is found among the parts: its places, and what it touches. Nothing is kept yet under
/// the place of the next event.
pub fn claims_by_parts()
    ensures places { (c : Configuration) (commands : ℕ) (p : Parts) (trail : Trail) (place : ℕ)
        → StandFor c commands p trail
        → find (λ (x : ClaimPlaces). x.claim == place) p.claims
        ≡ option_map as_places (claim_at (world_of c trail).claims place) }
    ensures kept { (c : Configuration) (commands : ℕ) (p : Parts) (trail : Trail) (place : ℕ)
        → StandFor c commands p trail
        → find (λ (x : KeptFootprint). x.key == place) p.kept
        ≡ option_map (as_kept c) (claim_at (world_of c trail).claims place) }
    ensures fresh { (c : Configuration) (commands : ℕ) (p : Parts) (trail : Trail) → StandFor c commands p trail
        → find (λ (x : KeptFootprint). x.key == p.count) p.kept ≡ None }
{}
