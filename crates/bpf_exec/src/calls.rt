//! Calls and returns.
ghost use Rattle.std.specs.Prelude.{◌≡◌};
ghost use Rattle.bpf_model.specs.Step.{call, effect, return_to};
ghost use Rattle.confined_view.specs.Touched.{Touched};
ghost use Rattle.bpf_exec.specs.Seen.{machine_of, effect_seen};

use crate::processor::{Next, Processor, SAVED_FRAMES, pointer_of};
use bpf_isa::{End, Insn};
use bpf_model::SavedFrame;
use confined_view::View;

impl Processor {
    /// The helper of number 1: the length of a range.
    #[inline(always)]
    pub fn call_helper(&mut self, view: &View) -> Next
        ensures effect { effect Insn.CallHelper (machine_of self.old view.now) ≡ effect_seen result self.new view.now }
        ensures place { self.new.place ≡ self.old.place }
    {
        self.registers[0] = view.range_len(self.registers[1]);
        Next::Behind
    }

    /// A call of a local function, whose first instruction lies so many units behind the next place.
    pub fn call(&mut self, distance: i32) -> Next
        ensures effect { (t : Touched) → call (machine_of self.old t) distance ≡ effect_seen result self.new t }
        ensures place { self.new.place ≡ self.old.place }
    {
        if self.free == 0 {
            return Next::Ended(End::CallDepth(self.place));
        }
        let mut registers = [0; 5];
        registers.copy_from_slice(&self.registers[6..]);
        self.free -= 1;
        self.frames[self.free] = SavedFrame {
            registers,
            return_place: self.place + 1,
        };
        self.registers[10] = pointer_of(SAVED_FRAMES - self.free);
        Next::By(distance)
    }

    /// A return from a local function, or from the program.
    pub fn exit(&mut self) -> Next
        ensures effect { (t : Touched) → effect Insn.Exit (machine_of self.old t) ≡ effect_seen result self.new t }
        ensures place { self.new.place ≡ self.old.place }
    {
        if self.free == SAVED_FRAMES {
            return Next::Ended(End::Exit(self.registers[0]));
        }
        let frame = self.frames[self.free];
        self.free += 1;
        self.registers[6..].copy_from_slice(&frame.registers);
        Next::At(frame.return_place)
    }
}
