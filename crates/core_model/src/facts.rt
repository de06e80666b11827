//! Further facts of lawful trails that code over the parts needs. The functions do nothing: what they ensure is
//! what is proved.
ghost use Rattle.std.specs.Prelude.{◌≡◌, ◌+◌, ◌*◌, ◌<◌, ◌≤◌, ℕ, IsSomeAnd, IsTrue, List, None, Some, length, slice_get};
ghost use Rattle.cp_base.specs.Configuration.{Configuration};
ghost use Rattle.cp_base.specs.declared.limits.TheConstants.{MAX_HOSTS};
ghost use Rattle.std.specs.List.{AllByRecursion};
ghost use Rattle.cp_base.specs.Contents.{Contents, bytes_in};
ghost use Rattle.cp_base.specs.Region.{Region};
ghost use Rattle.cp_base.specs.declared.commands.Command.{Command};
ghost use Rattle.device_model.specs.Checks.{refusal_of};
ghost use Rattle.trail_model.specs.Footprints.{cut_for};
ghost use Rattle.trail_model.specs.Lawful.{IsLawful, IsParty, Trail, history_of, is_idle, world_of};
ghost use Rattle.trail_model.specs.Pieces.{pieces_of};
ghost use Rattle.trail_model.specs.World.{Submission, submit_at};
ghost use Rattle.core_model.specs.Asked.{Asked, asked_at, asked_by_request};
ghost use Rattle.core_model.specs.Parts.{EntryPlaces, Parts, tables_in};
ghost use Rattle.core_model.specs.Picking.{AreAtHome, carried_for, is_clear_of, touched_by};
ghost use Rattle.core_model.specs.Telling.{TellsEntry};
ghost use Rattle.core_model.specs.Ties.{StandFor};

/// The submit at a place of a lawful trail is the world's, but for its stage.
pub fn submits_are_read_from_the_trail()
    ensures found { (c : Configuration) (commands : ℕ) (trail : Trail) (place : ℕ) (s : Submission)
        → IsLawful c commands trail
        → submit_at (world_of c trail).submits place ≡ Some s → asked_at trail place
        ≡ Some (asked_by_request s.request) }
    ensures there { (c : Configuration) (commands : ℕ) (trail : Trail) (place : ℕ) (asked : Asked)
        → IsLawful c commands trail
        → asked_at trail place ≡ Some asked
        → IsSomeAnd (submit_at (world_of c trail).submits place) (λ (s : Submission). asked_by_request s.request
        ≡ asked) }
{}

/// Each submit is a host's. Where a party is idle, there are fewer open claims than parties.
pub fn parties_are_few()
    ensures hosts { (c : Configuration) (commands : ℕ) (trail : Trail) (place : ℕ) (asked : Asked)
        → IsLawful c commands trail
        → asked_at trail place ≡ Some asked → (1 ≤ asked.host) × (asked.host ≤ MAX_HOSTS) }
    ensures claims { (c : Configuration) (commands : ℕ) (p : Parts) (trail : Trail) (by : ℕ)
        → StandFor c commands p trail
        → IsParty by → IsTrue (is_idle (world_of c trail) by)
        → (length p.claims < 2 * MAX_HOSTS) × (length p.kept < 2 * MAX_HOSTS) }
{}

/// The entries, the open claims and what waits are together as many as the submits, of which there are at most
/// as many as may be. The ordinal of a host's next command is at most one more than these.
pub fn parts_are_bounded()
    ensures ordinals { (c : Configuration) (commands : ℕ) (p : Parts) (trail : Trail) (host : ℕ)
        → StandFor c commands p trail
        → p.ordinals host ≤ p.submitted + 1 }
    ensures submits { (c : Configuration) (commands : ℕ) (p : Parts) (trail : Trail) → StandFor c commands p trail
        → (length p.entries + (length p.claims + length p.waiting) ≡ p.submitted) × (p.submitted ≤ commands) }
{}

/// The entries are as many as the history's completions, and each tells the completion of its number.
pub fn entries_tell_the_history()
    ensures number { (c : Configuration) (commands : ℕ) (p : Parts) (trail : Trail) → StandFor c commands p trail
        → length p.entries ≡ length (history_of c trail) }
    ensures told { (c : Configuration) (commands : ℕ) (p : Parts) (trail : Trail) (k : ℕ) (e : EntryPlaces)
        → StandFor c commands p trail
        → slice_get p.entries k ≡ Some e → IsSomeAnd (slice_get (history_of c trail) k) (TellsEntry trail e) }
{}

/// The bytes that a command carries are at home where it passes its checks and meets nothing that is kept, so
/// whoever reads them there has the pieces that are cut for it.
pub fn claims_find_their_bytes()
    ensures home { (c : Configuration) (commands : ℕ) (p : Parts) (trail : Trail) (command : Command)
        → StandFor c commands p trail
        → refusal_of c (tables_in p) command ≡ None → IsTrue (is_clear_of p.kept (touched_by c p command))
        → AllByRecursion (AreAtHome p (world_of c trail).state.contents) (carried_for c p command) }
    ensures same { (p : Parts) (contents : Contents) (r : Region) (bytes : List ℕ)
        → AreAtHome p contents r → length bytes ≡ r.len
        → ((k : ℕ) → k < r.len → slice_get bytes k ≡ p.store r.space (r.start + k)) → bytes ≡ bytes_in contents r }
    ensures cut { (c : Configuration) (commands : ℕ) (p : Parts) (trail : Trail) (command : Command)
        → StandFor c commands p trail
        → cut_for c (world_of c trail).state command
        ≡ pieces_of (world_of c trail).state.contents (carried_for c p command) }
{}

/// That a trail is lawful holds in one way, so a value may carry it as a ghost field.
pub fn lawful_in_one_way()
    ensures { (c : Configuration) (commands : ℕ) (trail : Trail) (one other : IsLawful c commands trail) → one ≡ other }
{}
