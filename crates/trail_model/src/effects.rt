//! The laws of single commands. The functions do nothing: what they ensure is what is proved.
ghost use Rattle.std.specs.Prelude.{◌≡◌, ℕ, IsTrue, IsFalse};
ghost use Rattle.cp_base.specs.Configuration.{Configuration};
ghost use Rattle.cp_base.specs.declared.region.SpaceId.{SpaceId};
ghost use Rattle.device_model.specs.Checks.{refusal_of};
ghost use Rattle.device_model.specs.Effect.{effect_of};
ghost use Rattle.device_model.specs.Memory.{moves_bytes};
ghost use Rattle.device_model.specs.State.{State};
ghost use Rattle.trail_model.specs.Fits.{StateFits};
ghost use Rattle.trail_model.specs.Footprints.{cut_for, execution_of, footprint_of};
ghost use Rattle.trail_model.specs.LocalEffects.{local_effect, put_back, written};
ghost use Rattle.trail_model.specs.Pieces.{all_bytes, any_has_byte};

use cp_base::Command;

/// A command that moves bytes and passes its checks answers and leaves what is written: its local effect
/// where all bytes are at hand.
pub fn effects_are_what_is_written()
    ensures { (c : Configuration) (s : State) (command : Command)
        → StateFits c s → refusal_of c s command ≡ None → IsTrue (moves_bytes command)
        → effect_of c s command ≡ put_back s (written c (execution_of s command) (all_bytes s.contents) command) }
{}

/// The frame law. A command that moves bytes and passes its checks answers and leaves what its local
/// effect on its own pieces gives, put back. A byte that it may not write stays, and so does every table.
pub fn effects_are_local()
    ensures local { (c : Configuration) (s : State) (command : Command)
        → StateFits c s → refusal_of c s command ≡ None → IsTrue (moves_bytes command)
        → effect_of c s command ≡ put_back s (local_effect c (execution_of s command) (cut_for c s command) command) }
    ensures frame { (c : Configuration) (s : State) (command : Command)
        → StateFits c s → refusal_of c s command ≡ None → IsTrue (moves_bytes command)
        → (space : SpaceId) (offset : ℕ)
        → IsFalse (any_has_byte (footprint_of c (execution_of s command).ranges command).writes space offset)
        → all_bytes (effect_of c s command).next.contents space offset ≡ all_bytes s.contents space offset }
    ensures tables { (c : Configuration) (s : State) (command : Command)
        → StateFits c s → refusal_of c s command ≡ None → IsTrue (moves_bytes command)
        → ((effect_of c s command).next.slots ≡ s.slots) × ((effect_of c s command).next.sets ≡ s.sets) }
{}
