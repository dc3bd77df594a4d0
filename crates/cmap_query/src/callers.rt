//! Callers of the library. Its page shows one of them.

use hayro_cmap::bcmap::Bundle;
use hayro_cmap::{CMap, CMapName, Cid, Fault, NamedFiles, load_embedded};
use std::alloc::{AllocError, Global};

/// The CID of a code of two bytes in a CMap that stands alone.
pub fn cid_of_two_bytes(alloc: Global, file: &[u8], code: u32) -> Result<Option<Cid>, AllocError> {
    let no_file: Option<&'static [u8]> = None;
    let map = CMap::parse(alloc, file, None, &|_name: CMapName<'_>| no_file)?;
    Ok(map.and_then(|map| map.lookup_cid_code(code, 2)))
}

/// The CID of a code of two bytes in a CMap that may use the files of a bundle.
pub fn cid_over_bundle(
    alloc: Global,
    bundle: &[u8],
    file: &[u8],
    code: u32,
) -> Result<Option<Cid>, AllocError> {
    let Some(bundle) = Bundle::parse(alloc, bundle)? else {
        return Ok(None);
    };
    let get_cmap = |name: CMapName<'_>| load_embedded(Some(&bundle), name);
    let map = CMap::parse(alloc, file, Some(&bundle), &get_cmap)?;
    Ok(map.and_then(|map| map.lookup_cid_code(code, 2)))
}

/// The CID of a code of two bytes in a CMap that may use these files, each with its name.
pub fn cid_over_files(
    alloc: Global,
    files: &[(&[u8], &[u8])],
    file: &[u8],
    code: u32,
) -> Result<Option<Cid>, AllocError> {
    match CMap::parse_from(alloc, None, file, None, &NamedFiles::alone(files)) {
        Ok(map) => Ok(map.lookup_cid_code(code, 2)),
        Err(Fault::Refused(_refusal)) => Ok(None),
        Err(Fault::Memory) => Err(AllocError),
    }
}

/// The CIDs of a string, one for each of its codes. A code in no codespace range has CID 0, and so has a code without
/// a CID.
pub fn cids_of_string(alloc: Global, map: &CMap, text: &[u8]) -> Result<Vec<Cid>, AllocError> {
    let mut cids = Vec::new(alloc);
    let mut left = text;
    while let Some(next) = map.layers().next_code(left) {
        let cid = map.lookup_cid_code_strict(next.code, next.byte_len);
        cids.push(cid.unwrap_or(0))?;
        left = &left[usize::from(next.byte_len)..];
    }
    Ok(cids)
}

#[cfg(test)]
mod tests {
    use super::*;
    use std::test::Fail;

    /// A table of two deltas, 0x20 and 0, an empty table of counts, and one file: the codes 0x20 and
    /// 0x21 of two bytes, with the CIDs 5 and 6.
    const BUNDLE: &[u8] = b"\0\0\0\x10\0\x02\x01\0\x02\0\0\0\x20\0\0\0\0\0\0\0\
        bcmap\x01\0\0\0\x1A\x04\0\0\0\x10\0\x02\0\0\0\x01\x40\0\x05\0\0";

    #[test]
    fn a_code_of_two_bytes_has_its_cid(rt: HostRuntime) -> Result<(), Fail> {
        let file = b"1 begincidrange <0000> <00FF> 100 endcidrange";
        assert!(rt; cid_of_two_bytes(rt.alloc(), file, 0x41)? == Some(165));
        assert!(rt; cid_of_two_bytes(rt.alloc(), b"usecmap", 0x41)? == None);
        Ok(())
    }

    #[test]
    fn a_string_has_the_cids_of_its_codes(rt: HostRuntime) -> Result<(), Fail> {
        let alloc = rt.alloc();
        let map = CMap::identity_h(alloc)?;
        let cids = cids_of_string(alloc, &map, b"\x00\x41\x81\x40\x42")?;
        assert!(rt; cids.as_slice() == [0x41, 0x8140, 0].as_slice());
        Ok(())
    }

    #[test]
    fn a_code_of_two_bytes_has_its_cid_over_a_bundle(rt: HostRuntime) -> Result<(), Fail> {
        let file = b"/83pv-RKSJ-H usecmap begincidchar <0020> 9 endcidchar";
        assert!(rt; cid_over_bundle(rt.alloc(), BUNDLE, file, 0x20)? == Some(9));
        assert!(rt; cid_over_bundle(rt.alloc(), BUNDLE, file, 0x21)? == Some(6));
        Ok(())
    }
}
