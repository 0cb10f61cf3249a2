//! What refusals print.

use its_loctable::StoreRefused;
use std::test::Fail;

#[test]
fn refusals_have_codes_and_sentences(rt: HostRuntime) -> Result<(), Fail> {
    for (refused, want) in [
        (StoreRefused::Full, "T1: the location table is full"),
        (StoreRefused::NoMemory, "T2: out of memory"),
    ] {
        let told = format!(in rt.alloc(); "{}: {refused}", refused.code())?;
        assert!(rt; told.as_str() == want);
    }
    Ok(())
}
