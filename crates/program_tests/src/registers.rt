use bpf_isa::Reg;
use std::test::Fail;

#[test]
fn registers_end_at_10(rt: HostRuntime) -> Result<(), Fail> {
    for n in 0..=10 {
        let register = Reg::new(n).ok_or("no register")?;
        assert_eq!(rt; register.number(), n);
    }
    for n in 11..=255 {
        assert!(rt; Reg::new(n).is_none(), "at {n}");
    }
    Ok(())
}
