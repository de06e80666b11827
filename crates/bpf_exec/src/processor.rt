//! The state of a program between two instructions, beside the bytes that it may touch.
ghost use Rattle.std.specs.Prelude.{◌≡◌, ◌/◌, ◌<◌, ◌≤◌};
ghost use Rattle.cp_base.specs.declared.limits.TheConstants.{MAX_PROGRAM, UNIT};
ghost use Rattle.bpf_model.specs.Machine.{frame_pointer};
ghost use Rattle.bpf_model.specs.Value.{unsigned};

use bpf_isa::{End, Reg};
use bpf_model::SavedFrame;

/// How many frames can be saved.
pub(crate) const SAVED_FRAMES: usize = 7;

// The address of the end of the stack, which is the frame pointer of the first frame.
const STACK_END: u64 = 0x1_0000_0000_1000;

// How many bytes of the stack a frame has.
const FRAME_LEN: u64 = 512;

/// What an instruction leads to, before the next place is looked at.
#[derive(Clone, Copy, Debug)]
pub(crate) enum Next {
    /// The execution goes on behind the instruction, which has one unit.
    Behind,
    /// It goes on so many units further than that, where an instruction may start or not.
    By(i32),
    /// It goes on at a place.
    At(u32),
    /// The execution ends.
    Ended(End),
}

/// The registers, the program counter, and the frames that are saved.
#[derive(Clone, Copy, Debug)]
pub(crate) struct Processor {
    /// R0 to R10.
    pub registers: [u64; 11],
    /// The saved frames behind those that are free, the latest first.
    pub frames: [SavedFrame; SAVED_FRAMES],
    /// How many frames are free.
    pub free: usize,
    /// The place of the instruction that is executed.
    pub place: u32,
    ghost few: { free ≤ 7 },
    ghost early: { place < MAX_PROGRAM / UNIT },
}

impl Processor {
    ghost use Rattle.std.specs.Prelude.{◌+◌, ◌%◌, ◌^◌, length, replicate, slice_index, slice_set};
    ghost use Rattle.bpf_model.specs.Address.{stack_len};
    ghost use Rattle.bpf_model.specs.Machine.{entry_machine, with_register};
    ghost use Rattle.confined_view.specs.Touched.{Touched};
    ghost use Rattle.bpf_exec.specs.Seen.{machine_of, window_memory, ranges_of};

    /// The processor at the start of a program, with two parameters and so many ranges.
    pub fn entry(p1: u64, p2: u64, ranges: u64) -> Processor
        ensures place { result.place ≡ 0 }
        ensures machine { (t : Touched) → t.stack ≡ replicate stack_len 0 → length (ranges_of t) ≡ ranges →
            machine_of result t ≡ entry_machine (ranges_of t) (window_memory t.windows) p1 p2 }
    {
        let saved = SavedFrame {
            registers: [0; 5],
            return_place: 0,
        };
        Processor {
            registers: [0, p1, p2, ranges, 0, 0, 0, 0, 0, 0, STACK_END],
            frames: [saved; SAVED_FRAMES],
            free: SAVED_FRAMES,
            place: 0,
        }
    }

    /// What a register holds.
    #[inline(always)]
    pub fn get(&self, register: Reg) -> u64
        ensures { result ≡ slice_index self.now.registers register }
    {
        self.registers[register.number() as usize]
    }

    /// Puts a value into a register.
    #[inline(always)]
    pub fn set(&mut self, reg: Reg, value: u64)
        ensures machine { (t : Touched) → machine_of self.new t ≡ with_register (machine_of self.old t) reg value }
        ensures place { self.new.place ≡ self.old.place }
    {
        self.registers[reg.number() as usize] = value;
    }

    /// The address that an offset from a register makes.
    #[inline(always)]
    pub fn address(&self, base: Reg, offset: i16) -> u64
        ensures { result ≡ (slice_index self.now.registers base + unsigned 64 offset) % 2 ^ 64 }
    {
        self.get(base).wrapping_add(operand(i32::from(offset)))
    }
}

/// An immediate as an operand, sign-extended to 64 bits.
#[inline(always)]
pub(crate) fn operand(imm: i32) -> u64
    ensures { result ≡ unsigned 64 imm }
{
    i64::from(imm).cast_unsigned()
}

/// The frame pointer of the frame of this number, from 0 to 7.
pub(crate) fn pointer_of(frame: usize) -> u64
    requires { frame ≤ 7 }
    ensures { result ≡ frame_pointer frame }
{
    STACK_END - FRAME_LEN * frame as u64
}
