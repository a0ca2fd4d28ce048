// One number that stands for all rows of a map in their order.
use cow_map::{CowMap, NoMemory};
use std::alloc::Global;
use std::collections::BTreeMap;

fn mixed(digest: u64, key: u64, value: u64) -> u64 {
    let digest = (digest ^ key).wrapping_mul(0x9e37_79b9_7f4a_7c15);
    (digest.rotate_left(29) ^ value).wrapping_mul(0xbf58_476d_1ce4_e5b9)
}

/// The number of the rows of a version.
pub fn digest(alloc: Global, map: &CowMap<u64, u64>) -> Result<u64, NoMemory> {
    let mut digest = 0;
    for (key, value) in map.walk(alloc)? {
        digest = mixed(digest, *key, *value);
    }
    Ok(digest)
}

/// The number of the rows of a map of the standard library.
pub fn plain_digest(map: &BTreeMap<u64, u64>) -> u64 {
    let mut digest = 0;
    for (key, value) in map {
        digest = mixed(digest, *key, *value);
    }
    digest
}
