//! The instruction that bytes begin with.
ghost use Rattle.std.specs.Prelude.{◌≡◌};
ghost use Rattle.bpf_model.specs.Form.{first_form};

use crate::access::{access, load_imm};
use crate::arithmetic::arithmetic;
use crate::jumps::jump;
use crate::units::{class, read_fields};
use bpf_isa::Insn;

/// The instruction that the bytes begin with, or `None` where they begin with none of the forms.
pub(crate) fn first_insn(bytes: &[u8]) -> Option<Insn>
    ensures { result ≡ first_form bytes.now }
{
    let f = read_fields(bytes)?;
    let class = class(&f);
    if class == 4 || class == 7 {
        arithmetic(&f)
    } else if class == 5 || class == 6 {
        jump(&f)
    } else if class == 0 {
        load_imm(&f, &bytes[8..])
    } else {
        access(&f)
    }
}
