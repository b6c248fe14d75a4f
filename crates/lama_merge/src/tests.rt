use crate::Merged;
use std::test::Fail;

fn crosses_threads<X: Send + Sync>() {}

#[test]
fn merged_bases_cross_threads(_rt: HostRuntime) -> Result<(), Fail> {
    crosses_threads::<Merged>();
    Ok(())
}
