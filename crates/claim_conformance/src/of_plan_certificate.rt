mod faults;
mod texts;

use plan_certificate::{Certificate, CertificateFault, read};
use std::alloc::Global;
use std::test::Fail;

/// The best plan of the pair, and the tree that excludes a better one.
const CAPACITY: &str = "{\"branches\":[[[0,1]]],\"budget\":200000,\"claim\":\"capacity\",\
    \"least\":[1,1],\"plan\":{\"cycle\":60,\"greens\":[25,25],\"starts\":[0,30]},\"version\":1}";

/// What the bytes are read as; the number of groups is that of a junction.
fn answer(
    alloc: Global,
    bytes: &[u8],
    groups: usize,
) -> Result<Result<Certificate, CertificateFault>, Fail> {
    if groups < 2 || groups > 16 {
        return Err("no junction has so many groups")?;
    }
    Ok(read(alloc, bytes, groups))
}
